// A list of values, and how one is read.
ghost use Rattle.std.specs.Prelude.{◌≡◌, ℕ, List, ◌↔◌, ◌++◌, [], ◌∷◌, ◌+◌, ◌≤◌, OnOk, OnErr, IfOk, IfErr, IfSome, IsTrue, All, Ok, length, slice_get};
ghost use Rattle.std.specs.List.{slice_split};
ghost use Rattle.vm_lists.specs.Lists.{is_comma, items_left, list_of, IsWithin, IsFaultOf};
ghost use Rattle.vm_lists.specs.ListGrammar.{IsList, IsOrMemory};

use crate::bounds::Limits;
use crate::faults::{ListFault, ListFaultKind};
use crate::items::item_of;
use crate::ranges::Spaced;
use std::alloc::{AllocError, Global};
use std::marker::Model;

/// The values of a list in the order in which they are written. One that is written twice is there twice.
///
/// A clause sees it as the list of its values. It is kept as its items, so a range of millions of values is small.
#[derive(Debug, Drop)]
pub struct ValueList {
    items: Vec<Spaced>,
    count: u64,
}

impl Model for ValueList {
    ghost use Rattle.std.specs.Prelude.{◌≡◌, ℕ, List, length};
    ghost use Rattle.std.specs.List.{concat};

    ghost Value = { List ℕ };

    ghost view = { λ list. concat list.items.items };

    ghost invariant = { λ list. list.count ≡ length (concat list.items.items) };
}

impl ValueList {
    fn new(alloc: Global) -> Self
        ensures { result ≡ [] }
    {
        ValueList {
            items: Vec::new(alloc),
            count: 0,
        }
    }

    /// How many values there are.
    pub fn len(&self) -> u64
        ensures { result ≡ length self.now }
    {
        self.count
    }

    /// Whether there is none; what [`read_list`] reads has at least one.
    pub fn is_empty(&self) -> bool
        ensures { IsTrue result ↔ (length self.now ≡ 0) }
    {
        self.count == 0
    }

    /// The value at a place, from 0, if there are so many.
    pub fn get(&self, index: u64) -> Option<u32>
        ensures { result ≡ slice_get self.now index }
    {
        let mut left = index;
        for item in &self.items {
            if left < item.len() {
                return Some(item.value_at(left));
            }
            left -= item.len();
        }
        None
    }

    // Puts the values of an item behind the others.
    fn push(&mut self, item: Spaced) -> Result<(), AllocError>
        ensures ok { OnOk result (self.new ≡ self.old ++ item) }
        ensures err { OnErr result (self.new ≡ self.old) }
    {
        let count = self.count.checked_add(item.len()).ok_or(AllocError)?;
        self.items.push(item)?;
        self.count = count;
        Ok(())
    }
}

// The first item of a text, and what stands behind its comma, if it has one.
fn first_item(text: &str) -> (&str, Option<&str>)
    ensures items { slice_split is_comma text.now ≡ result.0.now ∷ items_left result.1 }
    ensures inside { length result.0.now ≤ length text.now }
    ensures behind { IfSome result.1 (λ rest. length result.0.now + 1 + length rest.now ≡ length text.now) }
{
    match text.split_once(',') {
        Some((item, rest)) => (item, Some(rest)),
        None => (text, None),
    }
}

/// Reads a list of values: `LIST = ITEM { "," ITEM }`, `ITEM = NUMBER | NUMBER ".." NUMBER [ "/" NUMBER ]`.
///
/// A number is 1 to 10 decimal digits, and in percent one or two more behind a point. A range has its beginning and, by its
/// step, what follows as far as it isn't above its end; a step that isn't named is 1, or 1 percent. The numbers lie in the
/// limits, and a step is any number but 0.
///
/// The fault is that of the first item that has one: another form, at the item; a number outside the limits, at that number,
/// the beginning before the end; an end below its beginning, at the end; a step of 0, at the step. Memory is refused at an
/// item where the list has no fault up to there; a list of 2^64 values or more, which no memory holds, counts as that.
pub fn read_list(alloc: Global, limits: &Limits, text: &str) -> Result<ValueList, ListFault>
    ensures values { IfOk result (λ values. list_of limits.now text.now ≡ Ok values) }
    ensures fault { IfErr result (IsFaultOf (list_of limits.now text.now)) }

    // What is read is a list of these values, and a list of values is read so.
    ensures list { IfOk result (IsList limits.now text.now) }
    ensures accepts { (values : List ℕ) → IsList limits.now text.now values → IsOrMemory result values }

    ensures within { IfOk result (All (IsWithin limits.now)) }
    ensures some { IfOk result (λ values. 1 ≤ length values) }
{
    list_of(alloc, limits, text)
}

// Reads a list item by item. A fault stands in the text, or at its end.
pub(crate) fn list_of(alloc: Global, limits: &Limits, text: &str) -> Result<ValueList, ListFault>
    ensures values { IfOk result (λ values. list_of limits.now text.now ≡ Ok values) }
    ensures fault { IfErr result (IsFaultOf (list_of limits.now text.now)) }
    ensures inside { IfErr result (λ fault. fault.at ≤ length text.now) }
{
    let mut list = ValueList::new(alloc);
    let mut left = Some(text);
    while let Some(items) = left {
        let at = text.len() - items.len();
        let (item, rest) = first_item(items);
        let values = item_of(limits, at, item)?;
        let Ok(()) = list.push(values) else {
            return Err(ListFault {
                at,
                kind: ListFaultKind::Memory,
            });
        };
        left = rest;
    }
    Ok(list)
}
