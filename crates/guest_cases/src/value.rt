// What a word says that stands for a value.
use crate::fault::Fault;
use std::fmt;

/// A value as it is written: a number, or whether something is so or there.
#[derive(Clone, Copy, Debug, PartialEq, Eq)]
pub enum Value {
    Number(u64),
    Yes,
    No,
}

impl Value {
    pub fn parse(word: &str) -> Result<Value, Fault> {
        match word {
            "yes" => Ok(Value::Yes),
            "no" => Ok(Value::No),
            number => match number.parse::<u64>() {
                Ok(value) => Ok(Value::Number(value)),
                Err(_) => Err(Fault::Unknown),
            },
        }
    }
}

impl From<u32> for Value {
    fn from(number: u32) -> Value {
        Value::Number(u64::from(number))
    }
}

impl From<u64> for Value {
    fn from(number: u64) -> Value {
        Value::Number(number)
    }
}

impl From<bool> for Value {
    fn from(holds: bool) -> Value {
        if holds { Value::Yes } else { Value::No }
    }
}

impl From<Option<u32>> for Value {
    fn from(number: Option<u32>) -> Value {
        match number {
            Some(number) => Value::from(number),
            None => Value::No,
        }
    }
}

impl fmt::Display for Value {
    fn fmt<W: fmt::Write>(&self, f: &mut fmt::Formatter<W>) -> fmt::Result {
        match self {
            Value::Number(number) => write!(f, "{number}"),
            Value::Yes => write!(f, "yes"),
            Value::No => write!(f, "no"),
        }
    }
}

/// A number that stands in a word.
pub fn number(word: &str) -> Result<u32, Fault> {
    match word.parse::<u32>() {
        Ok(number) => Ok(number),
        Err(_) => Err(Fault::Unknown),
    }
}
