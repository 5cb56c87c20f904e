// A JSON value told in one text, so that arrays that are kept differently are told differently.
use std::alloc::AllocError;
use vm_json::Value;

/// Tells a value, and of an array also how it is kept: `T` as texts, `V` as values. A comma stands behind each item and member.
#[cycle(tell)]
pub(crate) fn tell(value: &Value<'_>, out: &mut String) -> Result<(), AllocError> {
    match value {
        Value::Null => out.push_str("null"),
        Value::Bool(truth) => out.push_str(if *truth { "true" } else { "false" }),
        Value::Number(number) => out.push_str(*number),
        Value::Text(text) => tell_text(*text, out),
        Value::Texts(texts) => tell_texts(texts, out),
        Value::Array(values) => tell_values(values, out),
        Value::Object(members) => tell_members(members, out),
    }
}

fn tell_text(text: &str, out: &mut String) -> Result<(), AllocError> {
    out.push_str("\"")?;
    out.push_str(text)?;
    out.push_str("\"")
}

fn tell_texts(texts: &[&str], out: &mut String) -> Result<(), AllocError> {
    out.push_str("T[")?;
    for text in texts {
        tell_text(*text, out)?;
        out.push_str(",")?;
    }
    out.push_str("]")
}

#[cycle(tell)]
fn tell_values(values: &[Value<'_>], out: &mut String) -> Result<(), AllocError> {
    out.push_str("V[")?;
    for value in values {
        tell(value, out)?;
        out.push_str(",")?;
    }
    out.push_str("]")
}

#[cycle(tell)]
fn tell_members(members: &[(&str, Value<'_>)], out: &mut String) -> Result<(), AllocError> {
    out.push_str("{")?;
    for (key, value) in members {
        tell_text(*key, out)?;
        out.push_str(":")?;
        tell(value, out)?;
        out.push_str(",")?;
    }
    out.push_str("}")
}
