//! Why rules are refused.
use bt_base::OutOfMemory;

/// Why a list of rules is refused before a row is looked at
/// (`google.bigtable.v2.ReadModifyWriteRowRequest.rules`). An index is the place of the rule in the list,
/// from 0 on.
#[derive(Clone, Copy, Debug, PartialEq, Eq)]
pub enum RulesRefusal {
    /// The list is empty.
    NoRules,
    /// The list has more rules than it may have.
    TooMany,
    /// The rule neither appends nor increments.
    Kind { index: u32 },
    /// No family of the table has the name that the rule gives.
    UnknownFamily { index: u32 },
    /// The qualifier has more than 16,384 bytes.
    LongQualifier { index: u32 },
    OutOfMemory,
}

/// Why rules cannot be carried out on a row (`google.bigtable.v2.ReadModifyWriteRule`). An index is the
/// place of the rule in the list, from 0 on.
#[derive(Clone, Copy, Debug, PartialEq, Eq)]
pub enum ModifyRefusal {
    /// The value to be incremented has not eight bytes.
    NotEightBytes { index: u32 },
    /// The sum is past what 64 bits with a sign hold.
    IncrementRange { index: u32 },
    /// The value would have more than 4,194,304 bytes.
    ValueTooLarge { index: u32 },
    OutOfMemory,
}

impl From<OutOfMemory> for RulesRefusal {
    ghost use Rattle.std.specs.Prelude.{◌≡◌};
    ghost use Rattle.bt_rmw.specs.declared.refusal.RulesRefusal.TheVariants.{OutOfMemory};

    ghost from_gives = { λ _ e. e ≡ OutOfMemory };

    fn from(_: OutOfMemory) -> Self {
        RulesRefusal::OutOfMemory
    }
}

impl From<OutOfMemory> for ModifyRefusal {
    ghost use Rattle.std.specs.Prelude.{◌≡◌};
    ghost use Rattle.bt_rmw.specs.declared.refusal.ModifyRefusal.TheVariants.{OutOfMemory};

    ghost from_gives = { λ _ e. e ≡ OutOfMemory };

    fn from(_: OutOfMemory) -> Self {
        ModifyRefusal::OutOfMemory
    }
}
