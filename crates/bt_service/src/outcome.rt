//! What is to be written for a line.
ghost use Rattle.std.specs.Prelude.{◌≡◌};
ghost use Rattle.bt_service.specs.Outcomes.{has_ended};

use bt_plans::{Answer, ReadPlan};

/// What is to be written for a line.
#[derive(Drop)]
pub(crate) enum Outcome {
    /// This; where the disk failed, the run ends after it.
    Says { answer: Answer, has_ended: bool },
    /// The rows that are read.
    Reads(ReadPlan),
}

impl Outcome {
    /// Whether the run ends after it.
    pub(crate) fn has_ended(&self) -> bool
        ensures { result ≡ has_ended self.now }
    {
        match self {
            Outcome::Says { has_ended, .. } => *has_ended,
            Outcome::Reads(_) => false,
        }
    }
}
