// How the guest of a case is set up.
use crate::fault::Fault;
use crate::trace::trace_of;
use crate::value::{Value, number};
use std::alloc::Global;
use vm_guest::GuestSpec;

/// What a case says of its guest.
#[derive(Clone, Copy)]
pub struct Draft {
    pub size: u32,
    pub min: u32,
    pub shares: u32,
    samples: u32,
    period: u32,
    rate: u32,
    quantum: u32,
    seed: u64,
    stream: u64,
    tell: bool,
    own_driver: bool,
    page: u32,
}

impl Draft {
    /// A guest of which these are said, as `size 4, min 2`. The rest are the defaults of a configuration.
    pub fn parse(text: &str) -> Result<Draft, Fault> {
        let mut draft = Draft {
            size: 0,
            min: 0,
            shares: 1000,
            samples: 100,
            period: 1000,
            rate: 16,
            quantum: 100,
            seed: 0,
            stream: 0,
            tell: true,
            own_driver: true,
            page: 4,
        };
        for pair in text.split(", ") {
            let Some((name, word)) = pair.split_once(' ') else {
                return Err(Fault::Unknown);
            };
            draft.set(name, word)?;
        }
        Ok(draft)
    }

    fn set(&mut self, name: &str, word: &str) -> Result<(), Fault> {
        match name {
            "size" => self.size = number(word)?,
            "min" => self.min = number(word)?,
            "shares" => self.shares = number(word)?,
            "samples" => self.samples = number(word)?,
            "period" => self.period = number(word)?,
            "rate" => self.rate = number(word)?,
            "quantum" => self.quantum = number(word)?,
            "page" => self.page = number(word)?,
            _ => return self.set_other(name, Value::parse(word)?),
        }
        Ok(())
    }

    fn set_other(&mut self, name: &str, value: Value) -> Result<(), Fault> {
        match (name, value) {
            ("seed", Value::Number(seed)) => self.seed = seed,
            ("stream", Value::Number(stream)) => self.stream = stream,
            ("tell", Value::Yes) => self.tell = true,
            ("tell", Value::No) => self.tell = false,
            ("own_driver", Value::Yes) => self.own_driver = true,
            ("own_driver", Value::No) => self.own_driver = false,
            _ => return Err(Fault::Unknown),
        }
        Ok(())
    }

    /// The guest with these steps, where all is within the limits of a guest.
    pub fn spec(self, alloc: Global, steps: &str) -> Result<GuestSpec, Fault> {
        let Draft {
            size,
            min,
            shares,
            samples,
            period,
            rate,
            quantum,
            seed,
            stream,
            tell,
            own_driver,
            page,
        } = self;
        if min < 1 || size < min || 262_144 < size || shares < 1 || 1_000_000 < shares {
            return Err(Fault::NotAllowed);
        }
        if samples < 1 || 1000 < samples || period < 1 || 1_000_000 < period {
            return Err(Fault::NotAllowed);
        }
        if rate < 1 || 256 < rate || quantum < 1 || 65536 < quantum {
            return Err(Fault::NotAllowed);
        }
        if page < 4 || 1_048_576 < page {
            return Err(Fault::NotAllowed);
        }
        let trace = trace_of(alloc, size, steps)?;
        Ok(GuestSpec {
            size,
            min,
            shares,
            samples,
            period,
            rate,
            quantum,
            seed,
            stream,
            tell,
            own_driver,
            page,
            trace,
        })
    }
}
