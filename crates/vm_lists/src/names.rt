// Which names lists may have.
ghost use Rattle.std.specs.Prelude.{◌≡◌, ℕ, List, Bool, IfErr, OnOk, bytes_eq};
ghost use Rattle.std.specs.List.{list_any};
ghost use Rattle.vm_lists.specs.Names.{AreNames, IsNameFault, checked_names, name_fault, names_in};

use crate::faults::{NameFault, NameFaultKind};
use crate::named::NamedList;

/// Says which texts are names.
pub trait NameRule {
    ghost is_name: { List ℕ → Bool };

    /// Whether a text is a name.
    fn is_name(&self, text: &str) -> bool
        ensures { result ≡ is_name text.now };
}

// Whether this is the name of a list.
fn is_named(list: &NamedList<'_>, name: &str) -> bool
    ensures { result ≡ bytes_eq list.now.name.now name.now }
{
    list.name == name
}

// Whether a list has this name.
fn has_name(lists: &[NamedList<'_>], name: &str) -> bool
    ensures { result ≡ list_any (λ list. bytes_eq list.name.now name.now) lists.now }
{
    lists.iter().any(|list| is_named(list, name))
}

// What is wrong with a name behind these lists.
fn name_fault<R: NameRule>(rule: &R, earlier: &[NamedList<'_>], name: &str) -> Option<NameFaultKind>
    ensures { result ≡ name_fault R.is_name (names_in earlier.now) name.now }
{
    if !rule.is_name(name) {
        return Some(NameFaultKind::NoName);
    }
    if has_name(earlier, name) {
        return Some(NameFaultKind::Twice);
    }
    None
}

/// Checks that the name of each list is one, and that no earlier list has it. The fault is that of the first list whose name isn't
/// so. Each name is compared with all before it, which is good for the few lists of a command line.
pub fn check_names<R: NameRule>(rule: &R, lists: &[NamedList<'_>]) -> Result<(), NameFault>
    ensures checked { result ≡ checked_names R.is_name (names_in lists.now) }

    // The names are good, or the first bad one is found.
    ensures names { OnOk result (AreNames R.is_name (names_in lists.now)) }
    ensures fault { IfErr result (IsNameFault R.is_name (names_in lists.now)) }
{
    checked_names(rule, lists)
}

// Checks name by name.
fn checked_names<R: NameRule>(rule: &R, lists: &[NamedList<'_>]) -> Result<(), NameFault>
    ensures { result ≡ checked_names R.is_name (names_in lists.now) }
{
    for (place, list) in lists.iter().enumerate() {
        if let Some(kind) = name_fault(rule, &lists[..place], list.name) {
            return Err(NameFault { place, kind });
        }
    }
    Ok(())
}
