//! Why rows cannot be read further.
ghost use Rattle.std.specs.Prelude.{◌≡◌};

use bt_base::OutOfMemory;

/// Why a source of rows refused. It is then only dropped.
#[derive(Clone, Copy, Debug, PartialEq, Eq)]
pub enum SourceFault {
    /// A call of the disk failed.
    DiskFailed,
    /// The bytes of a file at that place are outside their format.
    Damaged { file: u64, at: u64 },
    /// An allocation was refused.
    OutOfMemory,
}

impl From<OutOfMemory> for SourceFault {
    ghost use Rattle.bt_types.specs.declared.source_fault.SourceFault.TheVariants.{OutOfMemory};

    ghost from_gives = { λ _ fault. fault ≡ OutOfMemory };

    fn from(_: OutOfMemory) -> Self {
        SourceFault::OutOfMemory
    }
}
