//! A connection.
ghost use Rattle.std.specs.Prelude.{◌≡◌, ℕ, List, IsSome, Some};
ghost use Rattle.bt_service.specs.Outcomes.{FailsIf, IsUsable};
ghost use Rattle.bt_state.specs.State.{State};
ghost use Rattle.bt_store.specs.Stands.{Stands};
ghost use Rattle.bt_top.specs.Steps.{Talked};

use crate::buffer::LineBuffer;
use crate::lines::{is_blank, whole_lines};
use bt_messages::Refusal;
use bt_outside::{Clock, Disk, Links};
use bt_service::Handled;
use bt_store::Store;
use std::alloc::Global;

/// Serves the connection at hand, of which at most so many bytes are read, and answers whether the
/// run ends, since the disk failed. Its whole lines are answered before a further read.
pub fn serve<D: Disk, L: Links<D>, C: Clock>(
    alloc: Global,
    store: &mut Store,
    disk: &mut D,
    buffer: &mut LineBuffer,
    links: &mut L,
    clock: &mut C,
) -> bool
    requires at_hand { L.tells → IsSome (L.at_hand links.old) }
    requires stands { D.tells → (s : State) × Stands store.old s (D.held disk.old) (D.may_leave disk.old) }
    requires line { buffer.old.most ≡ store.old.limits.line }
    ensures tells { C.tells clock.new → C.tells clock.old }
    ensures talk { D.tells → L.tells → C.tells clock.new → (s : State) → Stands store.old s (D.held disk.old) (D.may_leave disk.old) → (bytes : List ℕ) → L.at_hand links.old ≡ Some bytes → Talked D.Disk result store.old.limits s store.new bytes disk.old disk.new (L.sent links.old) (L.sent links.new) (C.told clock.old) (C.told clock.new) (L.faults links.old) (L.faults links.new) }
    ensures usable { D.tells → IsUsable D.Disk result store.new disk.new }
    ensures most { buffer.new.most ≡ buffer.old.most }
    ensures limits { store.new.limits ≡ store.old.limits }
    ensures left { L.tells → L.left links.new ≡ L.left links.old }
    ensures disk { FailsIf D.Disk result disk.old disk.new }
    ensures next_faults { L.next_faults links.new ≡ L.next_faults links.old }
{
    buffer.clear();
    let limit = store.limits().connection;
    let mut count = 0u64;
    while count < limit {
        let Ok(n) = buffer.fill(links, limit - count) else {
            return false;
        };
        if n == 0 {
            if is_blank(buffer.text()) {
                return false;
            }
            let _sent = links.write(Refusal::LineNotEnded.line(), disk);
            return false;
        }
        count += n as u64;
        match whole_lines(alloc, store, disk, buffer, links, clock) {
            Handled::Answered => {}
            Handled::LinkLost => return false,
            Handled::DiskEnded => return true,
        }
        if buffer.is_full() {
            let _sent = links.write(Refusal::LineTooLong.line(), disk);
            return false;
        }
    }
    let _sent = links.write(Refusal::ConnectionTooLong.line(), disk);
    false
}
