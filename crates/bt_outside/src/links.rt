//! Connections, served one after another.
ghost use Rattle.std.specs.Prelude.{◌≡◌, ◌↔◌, ◌<◌, ◌≤◌, ℕ, List, [], ◌++◌, length, take, Option, None, Some, OnOk, OnErr, IfOk, IsSome};
ghost use Rattle.bt_base.specs.Counts.{Counts};
ghost use Rattle.bt_outside.specs.Links.{Sent, Adds, AddsPart, Marks, LastGoes, WentOn};

use crate::{Disk, LinkFailed};

/// Connections of which one at a time is at hand: from an answer true of `next` up to the next call
/// of `next` or of `close`. A connection that was left is never at hand again.
///
/// The links note the moment of the disk at each write, so that it can be said which answers had
/// left before a crash. A caller that is generic over `D` has no disk but the one that it was
/// given, and so can name no other moment.
pub trait Links<D: Disk> {
    /// Whether the links tell their bytes.
    ghost tells: { Type 0 };

    /// The bytes of the connections behind the one at hand.
    ghost left: { Self → List (List ℕ) };

    /// What is left of the connection at hand, if one is.
    ghost at_hand: { Self → Option (List ℕ) };

    /// What was written to each connection so far.
    ghost sent: { Self → List Sent };

    /// The moment of the disk at the last call of `write`, also of a failed one.
    ghost noted: { Self → Option ℕ };

    /// How often a call failed.
    ghost faults: { Self → ℕ };

    /// How often a call of `next` failed.
    ghost next_faults: { Self → ℕ };

    /// Goes to the next connection, and answers whether there is one.
    /// After false and after a failure no connection is at hand. A failed call has used up no
    /// connection: the next call goes to the one that it would have gone to.
    fn next(&mut self) -> Result<bool, LinkFailed>
        ensures ok { tells → IfOk result (λ more. WentOn more (left self.old) (left self.new) (at_hand self.new) (sent self.old) (sent self.new)) }
        ensures err { tells → OnErr result ((left self.new ≡ left self.old) × (at_hand self.new ≡ None) × (sent self.new ≡ sent self.old)) }
        ensures faults { Counts (faults self.old) (faults self.new) result }
        ensures noted { tells → noted self.new ≡ noted self.old }
        ensures next_faults { Counts (next_faults self.old) (next_faults self.new) result };

    /// Reads some bytes of the connection at hand to the front of `into`, and answers how many.
    /// It answers 0 exactly at the end of the connection. The caller gives room for one byte at
    /// least. A failed call has read nothing, and marks the connection as failed.
    fn read(&mut self, into: &mut [u8]) -> Result<usize, LinkFailed>
        requires at_hand { tells → IsSome (at_hand self.old) }
        requires room { 0 < length into.old }
        ensures count { IfOk result (λ n. n ≤ length into.old) }
        ensures bytes { tells → IfOk result (λ n. (rest : List ℕ) × (at_hand self.old ≡ Some (take n into.new ++ rest)) × (at_hand self.new ≡ Some rest)) }
        ensures end { tells → IfOk result (λ n. (n ≡ 0) ↔ (at_hand self.old ≡ Some [])) }
        ensures err { tells → OnErr result (at_hand self.new ≡ at_hand self.old) }
        ensures noted { tells → noted self.new ≡ noted self.old }
        ensures left { tells → left self.new ≡ left self.old }
        ensures sent { tells → OnOk result (sent self.new ≡ sent self.old) }
        ensures mark { tells → OnErr result (LastGoes Marks (sent self.old) (sent self.new)) }
        ensures faults { Counts (faults self.old) (faults self.new) result }
        ensures next_faults { next_faults self.new ≡ next_faults self.old };

    /// Writes the whole piece to the connection at hand, and notes the moment of the disk.
    /// A failed call has written a prefix of it, maybe none and maybe all, and marks the connection
    /// as failed. The moment is noted then too.
    fn write(&mut self, bytes: &[u8], disk: &D) -> Result<(), LinkFailed>
        requires { tells → IsSome (at_hand self.old) }
        ensures ok { tells → OnOk result (LastGoes (Adds bytes.now (D.moment disk.now)) (sent self.old) (sent self.new)) }
        ensures err { tells → OnErr result (LastGoes (AddsPart bytes.now (D.moment disk.now)) (sent self.old) (sent self.new)) }
        ensures noted { tells → noted self.new ≡ Some (D.moment disk.now) }
        ensures at_hand { tells → at_hand self.new ≡ at_hand self.old }
        ensures left { tells → left self.new ≡ left self.old }
        ensures faults { Counts (faults self.old) (faults self.new) result }
        ensures next_faults { next_faults self.new ≡ next_faults self.old };

    /// Leaves the connection at hand, with what was not read of it.
    /// It never fails, and does nothing where none is at hand.
    fn close(&mut self)
        ensures at_hand { tells → at_hand self.new ≡ None }
        ensures noted { tells → noted self.new ≡ noted self.old }
        ensures left { tells → left self.new ≡ left self.old }
        ensures sent { tells → sent self.new ≡ sent self.old }
        ensures faults { faults self.new ≡ faults self.old }
        ensures next_faults { next_faults self.new ≡ next_faults self.old };
}
