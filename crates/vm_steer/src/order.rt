// Domains in the order of their names.
ghost use Rattle.std.specs.Prelude.{◌≡◌, ◌<◌, IfOk, OnOk, length, map};
ghost use Rattle.vm_steer.specs.Names.{AreRising};
ghost use Rattle.vm_steer.specs.Order.{in_order, names_of, placed};

use crate::names::place_of;
use std::alloc::{AllocError, Global};
use vm_samples::Domain;

// Domains in order, and their names.
#[derive(Drop)]
pub(crate) struct Ordered<'a> {
    pub(crate) names: Vec<&'a [u8]>,
    pub(crate) domains: Vec<&'a Domain>,
}

pub(crate) fn name_of(domain: &Domain) -> &[u8]
    ensures { result.now ≡ domain.now.name }
{
    domain.name.as_slice()
}

// Puts a domain in front of the first whose name doesn't stand in front of its own.
fn place<'a>(ordered: &mut Ordered<'a>, domain: &'a Domain) -> Result<(), AllocError>
    requires names { map (λ n. n.now) ordered.old.names.items ≡ names_of (map (λ d. d.now) ordered.old.domains.items) }
    requires rising { AreRising (names_of (map (λ d. d.now) ordered.old.domains.items)) }
    ensures names { OnOk result (map (λ n. n.now) ordered.new.names.items ≡ names_of (map (λ d. d.now) ordered.new.domains.items)) }
    ensures rising { OnOk result (AreRising (names_of (map (λ d. d.now) ordered.new.domains.items))) }
    ensures placed { OnOk result (map (λ d. d.now) ordered.new.domains.items ≡ placed domain.now (map (λ d. d.now) ordered.old.domains.items)) }
{
    let name = name_of(domain);
    let place = place_of(&ordered.names, name);
    ordered.names.insert(place, name)?;
    ordered.domains.insert(place, domain)?;
    Ok(())
}

// The domains of a sample in order.
pub(crate) fn in_order<'a>(alloc: Global, domains: &'a [Domain]) -> Result<Ordered<'a>, AllocError>
    ensures names { IfOk result (λ ordered. map (λ n. n.now) ordered.names.items ≡ names_of (in_order domains.now)) }
    ensures rising { IfOk result (λ ordered. AreRising (names_of (in_order domains.now))) }
    ensures domains { IfOk result (λ ordered. map (λ d. d.now) ordered.domains.items ≡ in_order domains.now) }
{
    let mut ordered = Ordered {
        names: Vec::with_capacity(alloc, domains.len())?,
        domains: Vec::with_capacity(alloc, domains.len())?,
    };
    let mut left = domains.len();
    while left > 0 {
        left -= 1;
        place(&mut ordered, &domains[left])?;
    }
    Ok(ordered)
}
