// The keys of a policy.
ghost use Rattle.std.specs.Prelude.{◌≡◌, map};
ghost use Rattle.vm_policy_check.specs.KnownKeys.{guest_keys, root_keys};

use vm_samples::Key;

// Those of the root, in the order of their table.
pub(crate) fn root_keys() -> [&'static str; 13]
    ensures { map (λ k. k.now) result ≡ root_keys }
{
    [
        Key::Version.name(),
        Key::Memory.name(),
        Key::Unit.name(),
        Key::Overhead.name(),
        Key::Rate.name(),
        Key::Rebalance.name(),
        Key::Tax.name(),
        Key::Percent.name(),
        Key::Headroom.name(),
        Key::Cache.name(),
        Key::Most.name(),
        Key::Patience.name(),
        Key::Guests.name(),
    ]
}

// Those of a guest.
pub(crate) fn guest_keys() -> [&'static str; 5]
    ensures { map (λ k. k.now) result ≡ guest_keys }
{
    [
        Key::Name.name(),
        Key::Min.name(),
        Key::Max.name(),
        Key::Shares.name(),
        Key::Steer.name(),
    ]
}
