use std::alloc::{AllocError, AllocFailed};

/// Why a text was not read as a pattern.
#[derive(Clone, Copy, Debug, Drop, PartialEq, Eq)]
pub enum PatternRefusal {
    /// It is not UTF-8, is outside the grammar of `regex`, or nests deeper than that crate reads.
    BadPattern,
    /// What it stands for would be larger than `regex` builds, 10 MiB.
    LargePattern,
    OutOfMemory,
}

impl From<AllocError> for PatternRefusal {
    ghost use Rattle.std.specs.Prelude.{◌≡◌};
    ghost use Rattle.bt_pattern.specs.declared.refusal.PatternRefusal.TheVariants.{OutOfMemory};

    ghost from_gives = { λ _ error. error ≡ OutOfMemory };

    fn from(_: AllocError) -> PatternRefusal {
        PatternRefusal::OutOfMemory
    }
}

impl<T: Drop> From<AllocFailed<T>> for PatternRefusal {
    ghost use Rattle.std.specs.Prelude.{◌≡◌};
    ghost use Rattle.bt_pattern.specs.declared.refusal.PatternRefusal.TheVariants.{OutOfMemory};

    ghost from_gives = { λ _ error. error ≡ OutOfMemory };

    fn from(_: AllocFailed<T>) -> PatternRefusal {
        PatternRefusal::OutOfMemory
    }
}
