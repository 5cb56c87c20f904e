//! The guests of a configuration, taken out of it and put back.
ghost use Rattle.std.specs.Prelude.{◌≡◌, []};
ghost use Rattle.vm_domains.specs.Domains.{configs_of, domains_of, names_of, ArePaired};

use std::alloc::Global;
use std::mem;
use vm_config::Config;
use vm_domains::{Domains, GuestSpec, Names};

// Takes the guests out. No domain takes no memory.
pub(crate) fn take_guests(alloc: Global, config: &mut Config) -> (Names, Vec<GuestSpec>)
    ensures names { result.0 ≡ names_of config.old.domains }
    ensures guests { result.1.items ≡ configs_of config.old.domains }
    ensures paired { ArePaired result.0 result.1.items }
    ensures rest { config.new ≡ record config.old { domains = [] } }
{
    let domains = mem::replace(&mut config.domains, Domains::new(alloc));
    domains.into_parts()
}

// Puts guests in the place of those that it has.
pub(crate) fn put_guests(config: &mut Config, names: Names, guests: Vec<GuestSpec>)
    requires { ArePaired names guests.items }
    ensures { config.new ≡ record config.old { domains = domains_of names guests.items } }
{
    config.domains = Domains::from_parts(names, guests);
}
