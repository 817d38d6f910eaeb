//! All connections.
ghost use Rattle.std.specs.Prelude.{◌≡◌, ◌⊎◌, ℕ};
ghost use Rattle.bt_base.specs.Counts.{Risen};
ghost use Rattle.bt_service.specs.Outcomes.{FailsIf, IsUsable};
ghost use Rattle.bt_state.specs.State.{State};
ghost use Rattle.bt_store.specs.Stands.{Stands};
ghost use Rattle.bt_top.specs.Ends.{EndedSession, IsOfSession, is_disk_fault};

use crate::buffer::LineBuffer;
use crate::connection::serve;
use crate::exit::Exit;
use bt_outside::{Clock, Disk, Links};
use bt_store::Store;
use std::alloc::Global;

/// Serves at most so many connections, one after another, with the limits with which the store was
/// loaded. After `DiskFault` the store is only dropped: the tables are loaded again.
///
/// It answers `Done` once so many were served or no further one came; `OutOfMemory` before the first
/// one, and then nothing was read; `LinkFault` where the next one could not be had; and `DiskFault`
/// where a write, a cut or a sync of the disk failed, which is then the disk's last call.
pub fn session<D: Disk, L: Links<D>, C: Clock>(
    alloc: Global,
    store: &mut Store,
    disk: &mut D,
    links: &mut L,
    clock: &mut C,
    count: u32,
) -> Exit
    requires stands { D.tells → (s : State) × Stands store.old s (D.held disk.old) (D.may_leave disk.old) }
    ensures tells { C.tells clock.new → C.tells clock.old }
    ensures session { D.tells → L.tells → C.tells clock.new → (s : State) → Stands store.old s (D.held disk.old) (D.may_leave disk.old) → EndedSession D.Disk result store.old.limits count s store.new disk.old disk.new (L.left links.old) (L.left links.new) (L.sent links.old) (L.sent links.new) (C.told clock.old) (C.told clock.new) (L.faults links.old) (L.faults links.new) }
    ensures usable { D.tells → IsUsable D.Disk (is_disk_fault result) store.new disk.new }

    // When each exit comes.
    ensures exits { IsOfSession result }
    ensures disk_fault { FailsIf D.Disk (is_disk_fault result) disk.old disk.new }
    ensures link_fault { result ≡ Exit.LinkFault → Risen (L.next_faults links.old) (L.next_faults links.new) }
    ensures out_of_memory { result ≡ Exit.OutOfMemory → (links.new ≡ links.old) × (clock.new ≡ clock.old) × (disk.new ≡ disk.old) }
{
    let Ok(mut buffer) = LineBuffer::new(alloc, store.limits().line) else {
        return Exit::OutOfMemory;
    };
    let mut served = 0u32;
    while served < count {
        match links.next() {
            Err(_) => return Exit::LinkFault,
            Ok(false) => return Exit::Done,
            Ok(true) => {}
        }
        let has_ended = serve(alloc, store, disk, &mut buffer, links, clock);
        links.close();
        if has_ended {
            return Exit::DiskFault;
        }
        served += 1;
    }
    Exit::Done
}
