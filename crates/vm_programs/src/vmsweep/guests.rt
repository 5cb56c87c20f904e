//! The lists of values for guests with a name.
ghost use Rattle.std.specs.Prelude.{◌≡◌, IfErr, IfOk, Ok, map};
ghost use Rattle.vm_lists.specs.NamedLists.{named_in};
ghost use Rattle.vm_programs.specs.vmsweep.Lists.{given_each, guest_list, guests_of, names_checked, read_each, read_one};
ghost use Rattle.vm_programs.specs.vmsweep.Refused.{IsFirstOf};

use super::faults::SweepFault;
use super::keys::SweptKey;
use std::alloc::{AllocError, Global};
use vm_config::is_name;
use vm_lists::{NameRule, NamedList, check_names, read_named_list};
use vm_sweep::GuestList;
use vm_words::Request;

// The names of guests.
#[derive(Clone, Copy, Debug)]
struct GuestNames;

impl NameRule for GuestNames {
    ghost use Rattle.vm_config.specs.Names.{is_name};

    ghost is_name = { is_name };

    fn is_name(&self, text: &str) -> bool {
        is_name(text)
    }
}

// Reads a list for a guest.
#[tactic(auto, unfolding(crate::specs::vmsweep::Lists::read_one))]
fn read_one<'a>(alloc: Global, key: SweptKey, text: &'a str) -> Result<NamedList<'a>, SweepFault>
    ensures list { IfOk result (λ list. read_one key text.now ≡ Ok (named_in list)) }
    ensures fault { IfErr result (IsFirstOf (read_one key text.now)) }
{
    match read_named_list(alloc, &key.limits(), text) {
        Ok(list) => Ok(list),
        Err(fault) => Err(SweepFault::BadNamedList { key, fault }),
    }
}

// Reads texts as lists for guests.
fn read_each<'a>(
    alloc: Global,
    key: SweptKey,
    texts: &[&'a str],
) -> Result<Vec<NamedList<'a>>, SweepFault>
    ensures lists { IfOk result (λ lists. read_each key (map (λ text. text.now) texts.now) ≡ Ok (map named_in lists.items)) }
    ensures fault { IfErr result (IsFirstOf (read_each key (map (λ text. text.now) texts.now))) }
{
    let mut lists = Vec::new(alloc);
    for text in texts {
        match read_one(alloc, key, text) {
            Ok(list) => {
                let Ok(()) = lists.push(list) else {
                    return Err(SweepFault::Memory);
                };
            }
            Err(fault) => return Err(fault),
        }
    }
    Ok(lists)
}

// The names and values that a key is given.
#[tactic(auto, unfolding(crate::specs::vmsweep::Lists::given_each))]
fn given_each<'a>(
    alloc: Global,
    request: &Request<'a>,
    key: SweptKey,
) -> Result<Vec<NamedList<'a>>, SweepFault>
    ensures lists { IfOk result (λ lists. given_each key request.now ≡ Ok (map named_in lists.items)) }
    ensures fault { IfErr result (IsFirstOf (given_each key request.now)) }
{
    match request.texts(key.word()) {
        Some(texts) => read_each(alloc, key, texts),
        None => Ok(Vec::new(alloc)),
    }
}

// Whether each name of a key's lists is that of a guest, and none stands twice.
#[tactic(auto, unfolding(crate::specs::vmsweep::Lists::names_checked))]
fn check_names_of(key: SweptKey, lists: &[NamedList<'_>]) -> Result<(), SweepFault>
    ensures { result ≡ names_checked key (map named_in lists.now) }
{
    match check_names(&GuestNames, lists) {
        Ok(()) => Ok(()),
        Err(fault) => Err(SweepFault::BadName { key, fault }),
    }
}

// The same list, with a name of its own.
fn owned_one(alloc: Global, list: NamedList<'_>) -> Result<GuestList, AllocError>
    ensures { IfOk result (λ owned. owned ≡ guest_list (named_in list.entry)) }
{
    let NamedList { name, values } = list;
    let name = String::from_str(alloc, name)?;
    Ok(GuestList { name, values })
}

// The same lists, with names of their own.
fn owned(alloc: Global, lists: Vec<NamedList<'_>>) -> Result<Vec<GuestList>, AllocError>
    ensures { IfOk result (λ owned. owned.items ≡ map guest_list (map named_in lists.entry.items)) }
{
    let mut owned = Vec::new(alloc);
    let mut left = lists.into_iter();
    while let Some(list) = left.next() {
        owned.push(owned_one(alloc, list)?)?;
    }
    Ok(owned)
}

/// Lists for guests.
#[derive(Debug, Drop)]
pub(crate) struct Guests {
    pub(crate) minimums: Vec<GuestList>,
    pub(crate) shares: Vec<GuestList>,
}

/// The lists for guests that a request gives, or the first fault: list by list, and then name by name.
#[tactic(auto, unfolding(crate::specs::vmsweep::Lists::guests_of))]
pub(crate) fn guests_of(alloc: Global, request: &Request<'_>) -> Result<Guests, SweepFault>
    ensures lists { IfOk result (λ guests. guests_of request.now
        ≡ Ok (record { minimums = guests.minimums.items; shares = guests.shares.items })) }
    ensures fault { IfErr result (IsFirstOf (guests_of request.now)) }
{
    let minimums = match given_each(alloc, request, SweptKey::Min) {
        Ok(lists) => lists,
        Err(fault) => return Err(fault),
    };
    let shares = match given_each(alloc, request, SweptKey::Shares) {
        Ok(lists) => lists,
        Err(fault) => return Err(fault),
    };
    check_names_of(SweptKey::Min, &minimums)?;
    check_names_of(SweptKey::Shares, &shares)?;
    Ok(Guests {
        minimums: owned(alloc, minimums)?,
        shares: owned(alloc, shares)?,
    })
}
