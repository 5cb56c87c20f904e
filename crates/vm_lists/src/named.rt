// A list of values with a name in front, and how one is read.
ghost use Rattle.std.specs.Prelude.{◌≡◌, ◌≤◌, ℕ, List, All, IfErr, IfOk, Ok, length};
ghost use Rattle.vm_lists.specs.Lists.{IsWithin};
ghost use Rattle.vm_lists.specs.NamedLists.{IsNamedFaultOf, IsNamedList, IsNamedOrMemory, Named, named_in, named_of};

use crate::bounds::Limits;
use crate::faults::{NamedListFault, NamedListFaultKind};
use crate::lists::{ValueList, list_of};
use std::alloc::Global;

/// A name, and the list of values behind it.
#[derive(Debug, Drop)]
pub struct NamedList<'a> {
    /// It may be any text without `=`; [`check_names`](crate::check_names) judges it.
    pub name: &'a str,
    pub values: ValueList,
}

/// Reads a list of values with a name in front, `NAME "=" LIST`, where LIST is that of [`read_list`](crate::read_list). NAME is all in
/// front of the first `=`, whatever it is.
///
/// The fault is that of the list, with the byte counted from the beginning of the text, and memory is refused as there. Of a
/// text without `=` it is another one, at the end of the text.
pub fn read_named_list<'a>(
    alloc: Global,
    limits: &Limits,
    text: &'a str,
) -> Result<NamedList<'a>, NamedListFault>
    ensures values { IfOk result (λ named. named_of limits.now text.now ≡ Ok (named_in named)) }
    ensures fault { IfErr result (IsNamedFaultOf limits.now text.now) }

    // What is read is that name and a list of these values, and a name and a list of values are read so.
    ensures list { IfOk result (λ named. IsNamedList limits.now text.now (named_in named)) }
    ensures accepts { (named : Named) → IsNamedList limits.now text.now named → IsNamedOrMemory result named }

    ensures within { IfOk result (λ named. All (IsWithin limits.now) named.values) }
    ensures some { IfOk result (λ named. 1 ≤ length named.values) }
{
    let Some((name, list)) = text.split_once('=') else {
        return Err(NamedListFault {
            at: text.len(),
            kind: NamedListFaultKind::NoEquals,
        });
    };
    match list_of(alloc, limits, list) {
        Ok(values) => Ok(NamedList { name, values }),
        Err(fault) => Err(NamedListFault {
            at: name.len() + 1 + fault.at,
            kind: NamedListFaultKind::BadList { fault: fault.kind },
        }),
    }
}
