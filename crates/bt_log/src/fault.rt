//! Why bytes are no segment.
ghost use Rattle.std.specs.Prelude.{◌≡◌};

use bt_base::OutOfMemory;

/// Why the records of a segment were not read.
#[derive(Clone, Copy, Debug, PartialEq, Eq)]
pub(crate) enum Fault {
    /// So many bytes are left where a record begins that is outside the format.
    Bad { left: usize },
    /// An allocation was refused.
    OutOfMemory,
}

impl From<OutOfMemory> for Fault {
    ghost use Rattle.bt_log.specs.declared.fault.Fault.TheVariants as fault;

    ghost from_gives = { λ _ e. e ≡ fault.OutOfMemory };

    fn from(_: OutOfMemory) -> Self {
        Fault::OutOfMemory
    }
}
