//! A disk of numbered files.
ghost use Rattle.std.specs.Prelude.{◌≡◌, ◌↔◌, ℕ, ◌+◌, ◌<◌, ◌≤◌, min, length, slice_range, Bool, IsTrue, IsErr, OnOk, IfOk};
ghost use Rattle.bt_base.specs.Counts.{most, counted, Counts};
ghost use Rattle.bt_outside.specs.Disk.{Files, size, max_length, Holds, Shortened, Torn, TornCut, AtFile, Alike, Follows, NoMore, Settles, Elapses};

use crate::DiskFailed;

/// A disk, and what a crash may leave of it.
///
/// Each file has stable bytes, those at its last successful sync, and the ranges touched since. A
/// write touches its range, and a cut everything from the new length on; a failed one touches the
/// same. A sync that succeeds makes the bytes as read the stable ones, and nothing is touched then.
/// A crash leaves an image: of each file the stable bytes where they lie outside every touched
/// range, any byte elsewhere, and a length between the least and the greatest since that sync. The
/// disk as it reads is one of its images.
///
/// No file is longer than 35,184,372,088,832 bytes. A call that failed may have changed what a call
/// of its kind changes, as its clauses say, and the next call may succeed.
pub trait Disk {
    /// Whether the disk tells its bytes and its images.
    ghost tells: { Type 0 };

    /// The bytes of each file, as reads return them.
    ghost held: { Self → Files };

    /// The images that a crash now may leave.
    ghost may_leave: { Self → Files → Type 0 };

    /// The number of calls so far, those of `moment` not counted.
    ghost moment: { Self → ℕ };

    /// The images that a crash at some moment since that one might have left.
    ghost left_since: { Self → ℕ → Files → Type 0 };

    /// The bytes that reads asked for.
    ghost asked: { Self → ℕ };

    /// How often a call failed.
    ghost faults: { Self → ℕ };

    /// How often a write, a cut or a sync failed. These failures are among those of `faults`.
    ghost write_faults: { Self → ℕ };

    /// Whether the last call failed.
    ghost failing: { Self → Bool };

    /// The length of a file in bytes, which is 0 where it was never written.
    /// It fails where the length cannot be had, and where it would be above the greatest length.
    fn length(&mut self, file: u64) -> Result<u64, DiskFailed>
        ensures length { tells → IfOk result (λ n. n ≡ size (held self.old) file) }
        ensures limit { IfOk result (λ n. n ≤ max_length) }
        ensures held { tells → Alike (held self.old) (held self.new) }
        ensures crash { tells → NoMore (may_leave self.old) (may_leave self.new) }
        ensures time { tells → moment self.new < most → Elapses (moment self.old) (moment self.new) (left_since self.old) (left_since self.new) (may_leave self.new) }
        ensures asked { tells → asked self.new ≡ asked self.old }
        ensures moment { moment self.new ≡ counted (moment self.old) }
        ensures faults { Counts (faults self.old) (faults self.new) result }
        ensures write_faults { write_faults self.new ≡ write_faults self.old }
        ensures failing { IsTrue (failing self.new) ↔ IsErr result };

    /// Fills `into` with the bytes of the file from that place on.
    /// The caller asks for bytes that lie in the file. After a failure `into` holds any bytes.
    /// The bytes are counted as asked for in both cases.
    fn read(&mut self, file: u64, at: u64, into: &mut [u8]) -> Result<(), DiskFailed>
        requires { tells → at + length into.old ≤ size (held self.old) file }
        ensures bytes { tells → OnOk result (into.new ≡ slice_range (held self.old file) at (at + length into.old)) }
        ensures held { tells → Alike (held self.old) (held self.new) }
        ensures crash { tells → NoMore (may_leave self.old) (may_leave self.new) }
        ensures time { tells → moment self.new < most → Elapses (moment self.old) (moment self.new) (left_since self.old) (left_since self.new) (may_leave self.new) }
        ensures asked { tells → asked self.new ≡ min (asked self.old + length into.old) most }
        ensures moment { moment self.new ≡ counted (moment self.old) }
        ensures faults { Counts (faults self.old) (faults self.new) result }
        ensures write_faults { write_faults self.new ≡ write_faults self.old }
        ensures failing { IsTrue (failing self.new) ↔ IsErr result };

    /// Writes the bytes from that place on, over what is there and past the end.
    /// The place lies in the file or at its end. It fails too where the bytes would end past the
    /// greatest length. After a failure the range reads as any bytes, and the length is any from the
    /// one before up to the end of the range.
    fn write(&mut self, file: u64, at: u64, bytes: &[u8]) -> Result<(), DiskFailed>
        requires { tells → at ≤ size (held self.old) file }
        ensures written { tells → OnOk result (AtFile file (Holds at bytes.now) (held self.old) (held self.new)) }
        ensures torn { tells → AtFile file (Torn at (length bytes.now)) (held self.old) (held self.new) }
        ensures limit { OnOk result (at + length bytes.now ≤ max_length) }
        ensures crash { tells → Follows (AtFile file (Torn at (length bytes.now))) (may_leave self.old) (may_leave self.new) }
        ensures time { tells → moment self.new < most → Elapses (moment self.old) (moment self.new) (left_since self.old) (left_since self.new) (may_leave self.new) }
        ensures asked { tells → asked self.new ≡ asked self.old }
        ensures moment { moment self.new ≡ counted (moment self.old) }
        ensures faults { Counts (faults self.old) (faults self.new) result }
        ensures write_faults { Counts (write_faults self.old) (write_faults self.new) result }
        ensures failing { IsTrue (failing self.new) ↔ IsErr result };

    /// Cuts the file to a length, which is no more than the one that it has.
    /// After a failure the bytes from the new length on are any, up to the length before.
    fn cut(&mut self, file: u64, length: u64) -> Result<(), DiskFailed>
        requires { tells → length ≤ size (held self.old) file }
        ensures cut { tells → OnOk result (AtFile file (Shortened length) (held self.old) (held self.new)) }
        ensures torn { tells → AtFile file (TornCut length) (held self.old) (held self.new) }
        ensures crash { tells → Follows (AtFile file (TornCut length)) (may_leave self.old) (may_leave self.new) }
        ensures time { tells → moment self.new < most → Elapses (moment self.old) (moment self.new) (left_since self.old) (left_since self.new) (may_leave self.new) }
        ensures asked { tells → asked self.new ≡ asked self.old }
        ensures moment { moment self.new ≡ counted (moment self.old) }
        ensures faults { Counts (faults self.old) (faults self.new) result }
        ensures write_faults { Counts (write_faults self.old) (write_faults self.new) result }
        ensures failing { IsTrue (failing self.new) ↔ IsErr result };

    /// Makes the bytes of the file stable: a crash then leaves of it what reads return.
    /// After a failure the file reads as before, and a crash may leave what it might have left
    /// before. The other files are as they were in both cases.
    fn sync(&mut self, file: u64) -> Result<(), DiskFailed>
        ensures durable { tells → OnOk result (Settles file (held self.old file) (may_leave self.new)) }
        ensures held { tells → Alike (held self.old) (held self.new) }
        ensures crash { tells → NoMore (may_leave self.old) (may_leave self.new) }
        ensures time { tells → moment self.new < most → Elapses (moment self.old) (moment self.new) (left_since self.old) (left_since self.new) (may_leave self.new) }
        ensures asked { tells → asked self.new ≡ asked self.old }
        ensures moment { moment self.new ≡ counted (moment self.old) }
        ensures faults { Counts (faults self.old) (faults self.new) result }
        ensures write_faults { Counts (write_faults self.old) (write_faults self.new) result }
        ensures failing { IsTrue (failing self.new) ↔ IsErr result };

    /// The number of calls so far, those of `moment` not counted.
    /// It never fails. It stops at 18446744073709551615, and clauses on moments end there.
    fn moment(&self) -> u64
        ensures { result ≡ moment self.now };

    /// The disk as it reads is one of its images.
    ghost reads_as_image: { (disk : Self) → tells → may_leave disk (held disk) };

    /// This moment is one of those since an earlier one.
    ghost counts_now: { (disk : Self) (t : ℕ) (c : Files) → tells → t ≤ moment disk → may_leave disk c → left_since disk t c };

    /// Since this moment there is no other.
    ghost only_now: { (disk : Self) (c : Files) → tells → moment disk < most → left_since disk (moment disk) c → may_leave disk c };

    /// What might have been left since a later moment, might have been left since an earlier one.
    ghost sooner: { (disk : Self) (t u : ℕ) (c : Files) → tells → t ≤ u → left_since disk u c → left_since disk t c };
}
