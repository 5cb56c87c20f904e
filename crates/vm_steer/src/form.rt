// What is written of a host log.
ghost use Rattle.std.specs.Prelude.{◌≡◌};
ghost use Rattle.vm_steer.specs.Fold.{header_in};

/// What is written of a host log.
#[derive(Clone, Copy, Debug, PartialEq, Eq)]
pub enum Form {
    /// The orders, for `virsh`, with what was decided as comments: of each sample [`text_of`](crate::text_of), or
    /// [`bad_text`](crate::bad_text).
    Orders,
    /// The same decisions as a table of comma-separated values: a header, and of each good sample
    /// [`records_of`](crate::records_of).
    Table,
}

impl Form {
    /// What is written in front of the samples.
    #[tactic(auto, unfolding(crate::specs::Table::header))]
    pub fn header(self) -> &'static [u8]
        ensures { result.now ≡ header_in self }
    {
        match self {
            Form::Orders => b"",
            Form::Table => {
                b"sample,state,free,domain,held,left,target,used,active,demand,min,cap,shares,order\r\n"
            }
        }
    }
}
