//! The bytes of a reply.
ghost use Rattle.std.specs.Prelude.{◌≡◌};
ghost use Rattle.bt_plans.specs.Plans.{answer_bytes};

use bt_base::Blob;
use bt_messages::{Refusal, empty_lines};

/// A reply before it is written: most replies are constants and take no memory.
#[derive(Debug, Drop)]
pub enum Answer {
    Refused(Refusal),
    /// An empty response, and the status of success.
    Empty,
    Lines(Blob),
}

impl Answer {
    /// The lines of the reply.
    pub fn bytes(&self) -> &[u8]
        ensures { result.now ≡ answer_bytes self.now }
    {
        match self {
            Answer::Refused(refusal) => refusal.line(),
            Answer::Empty => empty_lines(),
            Answer::Lines(lines) => lines.bytes(),
        }
    }
}
