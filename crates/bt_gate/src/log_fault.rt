//! Why a call on a file of the log could not be served.
ghost use Rattle.std.specs.Prelude.{◌≡◌};

use bt_base::OutOfMemory;
use bt_outside::DiskFailed;
use std::alloc::{AllocError, AllocFailed};

/// Why a call on a file of the log could not be served.
#[derive(Clone, Copy, Debug, PartialEq, Eq)]
pub enum LogFault {
    /// A call of the disk failed.
    DiskFailed,
    /// From byte `at` on the file is outside its format.
    Damaged { file: u64, at: u64 },
    /// What was to be written has `length` bytes, which is more than was allowed.
    TooLarge { length: u64 },
    /// An allocation was refused.
    OutOfMemory,
}

impl From<DiskFailed> for LogFault {
    ghost use Rattle.bt_gate.specs.declared.log_fault.LogFault.TheVariants as fault;

    ghost from_gives = { λ _ e. e ≡ fault.DiskFailed };

    fn from(_: DiskFailed) -> Self {
        LogFault::DiskFailed
    }
}

impl From<OutOfMemory> for LogFault {
    ghost use Rattle.bt_gate.specs.declared.log_fault.LogFault.TheVariants as fault;

    ghost from_gives = { λ _ e. e ≡ fault.OutOfMemory };

    fn from(_: OutOfMemory) -> Self {
        LogFault::OutOfMemory
    }
}

impl From<AllocError> for LogFault {
    ghost use Rattle.bt_gate.specs.declared.log_fault.LogFault.TheVariants as fault;

    ghost from_gives = { λ _ e. e ≡ fault.OutOfMemory };

    fn from(_: AllocError) -> Self {
        LogFault::OutOfMemory
    }
}

impl<T: Drop> From<AllocFailed<T>> for LogFault {
    ghost use Rattle.bt_gate.specs.declared.log_fault.LogFault.TheVariants as fault;

    ghost from_gives = { λ _ e. e ≡ fault.OutOfMemory };

    fn from(_: AllocFailed<T>) -> Self {
        LogFault::OutOfMemory
    }
}
