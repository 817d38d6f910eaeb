//! Why no change is planned.
use bt_base::OutOfMemory;
use bt_messages::Refusal;

/// Why no change is planned.
#[derive(Clone, Copy, Debug)]
pub enum NoPlan {
    Refused(Refusal),
    OutOfMemory,
}

impl From<OutOfMemory> for NoPlan {
    ghost use Rattle.std.specs.Prelude.{◌≡◌};
    ghost use Rattle.bt_plans.specs.declared.no_plan.NoPlan.TheVariants.{OutOfMemory};

    ghost from_gives = { λ _ e. e ≡ OutOfMemory };

    fn from(_: OutOfMemory) -> Self {
        NoPlan::OutOfMemory
    }
}

impl From<Refusal> for NoPlan {
    ghost use Rattle.std.specs.Prelude.{◌≡◌};
    ghost use Rattle.bt_plans.specs.declared.no_plan.NoPlan.TheVariants.{Refused};

    ghost from_gives = { λ refusal e. e ≡ Refused refusal };

    fn from(refusal: Refusal) -> Self {
        NoPlan::Refused(refusal)
    }
}
