// A call of a guest, as a line names it.
use crate::fault::Fault;
use crate::value::number;

/// A call of a guest, or several that belong together.
#[derive(Clone, Copy)]
pub enum Call {
    Order { blocked: bool },
    Epoch,
    Serve,
    /// The device is served, spares come back, orders are given, and an epoch goes by.
    NextEpoch,
    Revoke,
    Grant,
    /// A grant of a frame that the guest holds.
    GrantHeld,
    AddSpare,
    Release(u32),
    LowerTarget(u32),
    RaiseTarget(u32),
    SetCap(u32),
    SetMin(u32),
    /// A minimum below the least one so far, for which the swap area grows.
    LowerMin(u32),
    SetShares(u32),
}

impl Call {
    pub fn parse(line: &str) -> Result<Call, Fault> {
        if let Some(call) = plain(line) {
            return Ok(call);
        }
        match line.rsplit_once(' ') {
            Some((name, word)) => counted(name, number(word)?),
            None => Err(Fault::Unknown),
        }
    }
}

fn plain(line: &str) -> Option<Call> {
    Some(match line {
        "order" => Call::Order { blocked: false },
        "order blocked" => Call::Order { blocked: true },
        "epoch" => Call::Epoch,
        "serve" => Call::Serve,
        "next epoch" => Call::NextEpoch,
        "revoke" => Call::Revoke,
        "grant" => Call::Grant,
        "grant held" => Call::GrantHeld,
        "add spare" => Call::AddSpare,
        _ => return None,
    })
}

fn counted(name: &str, count: u32) -> Result<Call, Fault> {
    Ok(match name {
        "release" => Call::Release(count),
        "lower target" => Call::LowerTarget(count),
        "raise target" => Call::RaiseTarget(count),
        "cap" => Call::SetCap(count),
        "min" => Call::SetMin(count),
        "lower min" => Call::LowerMin(count),
        "shares" => Call::SetShares(count),
        _ => return Err(Fault::Unknown),
    })
}
