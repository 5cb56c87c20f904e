// How a host's memory is shared among its domains.
use std::marker::Model;
use vm_plan::Percents;

/// How one guest is steered, by the name of its domain. Its type keeps the range of each field.
#[derive(Debug, Drop)]
pub struct GuestPolicy {
    /// The name of the domain, as [`is_name`](crate::is_name) takes it.
    pub name: String,
    /// The units that it is left at least, 1 to 2^54; of a guest without them `Policy::most` says how many.
    pub min: Option<u64>,
    /// The units that it has at most, 1 to 2^54; without them all that the domain may have.
    pub max: Option<u64>,
    /// 1 to 1000000 (Waldspurger, "Memory Resource Management in VMware ESX Server", OSDI 2002, section 5.1).
    pub shares: u32,
    /// Whether its balloon is moved at all.
    pub steer: bool,
}

impl Model for GuestPolicy {
    ghost use Rattle.vm_samples.specs.Policies.{GuestPolicyView};

    ghost Value = { GuestPolicyView };

    ghost use Rattle.vm_samples.specs.PolicyFields.{guest_of, IsGuest};

    ghost view = { guest_of };

    ghost invariant = { IsGuest };
}

/// How a host's memory is shared among its domains. Memory is counted in units. Its type keeps the range of each field.
#[derive(Debug, Drop)]
pub struct Policy {
    /// KiB of a unit, 4 to 1048576.
    pub unit: u32,
    /// The units that all domains together may hold, with their overhead: 1 to 262144.
    pub memory: u32,
    /// The units that the host needs for each domain beside the domain's own memory, at most 1024.
    pub overhead: u32,
    /// The most units by which one sample may lower a domain, 1 to 262144.
    pub rate: u32,
    /// The most units that are on their way from domain to domain, at most 262144.
    pub rebalance: u32,
    /// The tax on idle memory in hundredths of a percent, at most 9999 (section 5.2).
    pub tax: u32,
    /// The parts that are meant to be free, in hundredths of a percent: each at most 10000, and none above the one before it
    /// (section 6.3).
    pub percents: Percents,
    /// Percent that a domain is to have beyond what it uses, at most 1000.
    pub headroom: u32,
    /// Percent of what the kernel of a guest could drop that counts as used, at most 100; `(100 + headroom) * cache` is below
    /// 10000.
    pub cache: u32,
    /// Percent of a domain's maximum that may be ballooned where its guest has no minimum, at most 99.
    pub most: u32,
    /// The samples after which a balloon that does not follow is believed, 1 to 10000.
    pub patience: u32,
    /// The guests that the policy names, at most 256. No two have one name.
    pub guests: Vec<GuestPolicy>,
}

impl Model for Policy {
    ghost use Rattle.vm_samples.specs.Policies.{PolicyView};

    ghost Value = { PolicyView };

    ghost use Rattle.vm_samples.specs.PolicyFields.{policy_of_fields, IsPolicyInside};

    ghost view = { policy_of_fields };

    ghost invariant = { IsPolicyInside };
}
