ghost use Rattle.std.specs.Prelude.{◌≡◌, ◌<◌, [], ◌∷◌, ◌++◌, length, IfErr, OnOk, OnErr, None};
ghost use Rattle.vm_domains.specs.Domains.{configs_of, domains_of, names_of, position_of, ArePaired};

use crate::names::Names;
use std::alloc::{AllocError, Global};
use std::marker::Model;
use vm_guest::GuestSpec;

/// The guests that a host may run, at most 256, by their names and in order (`virsh` calls them domains). No two have one name.
/// A clause reads them as a list of names and configurations.
#[derive(Drop)]
pub struct Domains {
    names: Names,
    specs: Vec<GuestSpec>,
}

impl Model for Domains {
    ghost use Rattle.std.specs.Prelude.{List};
    ghost use Rattle.vm_domains.specs.Domains.{Domain, domains_of, ArePaired};

    ghost Value = { List Domain };

    ghost view = { λ d. domains_of d.names d.specs.items };

    ghost invariant = { λ d. ArePaired d.names d.specs.items };
}

/// `clone` gives the same domains in memory of their own. An `Err` says that memory was refused.
impl Clone for Domains {
    ghost is_clone = { λ domains copy. copy ≡ domains };

    fn clone(&self) -> Result<Domains, AllocError> {
        let names = self.names.clone()?;
        let specs = self.specs.clone()?;
        Ok(Domains { names, specs })
    }
}

impl Domains {
    /// No domain.
    pub fn new(alloc: Global) -> Self
        ensures { result ≡ [] }
    {
        Domains {
            names: Names::new(alloc),
            specs: Vec::new(alloc),
        }
    }

    /// Adds a domain at the end, under a name that isn't there. There are at most 256 of them. Where memory is refused, the
    /// specification comes back, and nothing changes.
    pub fn push(&mut self, name: &str, spec: GuestSpec) -> Result<(), GuestSpec>
        requires new_name { position_of name.now self.old ≡ None }
        requires few { length self.old < 256 }
        ensures ok { OnOk result (self.new ≡ self.old ++ record { name = name.now; config = spec } ∷ []) }
        ensures back { IfErr result (λ back. back ≡ spec) }
        ensures err { OnErr result (self.new ≡ self.old) }
    {
        // Its type keeps the limits, which go into those of the domains.
        let _ = &spec.size;
        let alloc = *self.specs.allocator();
        if self.specs.reserve(1).is_err() || self.names.push(alloc, name).is_err() {
            return Err(spec);
        }
        self.specs.push_reserved(spec);
        Ok(())
    }

    /// How many there are.
    pub fn len(&self) -> usize
        ensures { result ≡ length self.now }
    {
        self.specs.len()
    }

    /// The place of the domain with a name, counted from 0.
    pub fn position(&self, name: &str) -> Option<usize>
        ensures { result ≡ position_of name.now self.now }
    {
        self.names.position(name)
    }

    /// The domains of these names, one for each of these specifications, as [`Domains::into_parts`] gives them. Takes no memory.
    pub fn from_parts(names: Names, specs: Vec<GuestSpec>) -> Self
        requires { ArePaired names specs.items }
        ensures { result ≡ domains_of names specs.items }
    {
        Domains { names, specs }
    }

    /// The names, and a specification for each of them. Takes no memory.
    pub fn into_parts(self) -> (Names, Vec<GuestSpec>)
        ensures parts { domains_of result.0 result.1.items ≡ self }
        ensures paired { ArePaired result.0 result.1.items }
        ensures names { result.0 ≡ names_of self }
        ensures configs { result.1.items ≡ configs_of self }
    {
        (self.names, self.specs)
    }
}
