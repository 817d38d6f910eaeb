//! A printer.
ghost use Rattle.std.specs.Prelude.{◌≡◌, ◌++◌, ℕ, List, take, OnOk, OnErr};
ghost use Rattle.bt_base.specs.Counts.{Counts};

use crate::PrintFailed;

/// Prints texts, one behind the other.
pub trait Print {
    /// Whether the text is told. A printer that tells it goes on telling it.
    ghost tells: { Self → Type 0 };

    /// What was printed.
    ghost printed: { Self → List ℕ };

    /// How often a call failed.
    ghost faults: { Self → ℕ };

    /// Prints the whole text.
    /// A failed call has printed a prefix of it, maybe none and maybe all, and is counted.
    /// The caller may go on after a failure.
    fn print(&mut self, text: &[u8]) -> Result<(), PrintFailed>
        ensures tells { tells self.old → tells self.new }
        ensures whole { tells self.old → OnOk result (printed self.new ≡ printed self.old ++ text.now) }
        ensures part { tells self.old → OnErr result ((n : ℕ) × (printed self.new ≡ printed self.old ++ take n text.now)) }
        ensures cause { Counts (faults self.old) (faults self.new) result };
}
