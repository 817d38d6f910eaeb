//! A line, handled.
ghost use Rattle.std.specs.Prelude.{◌≡◌, ◌≤◌, IsSome};
ghost use Rattle.bt_base.specs.Counts.{Risen};
ghost use Rattle.bt_entry.specs.Grammar.{last_moment};
ghost use Rattle.bt_service.specs.Outcomes.{DiskCounted, IsUsableAfter, LinksCounted, handled_by};
ghost use Rattle.bt_service.specs.Steps.{KeepsConnections, Turned};
ghost use Rattle.bt_state.specs.State.{State};
ghost use Rattle.bt_store.specs.Stands.{Stands};

use crate::carrying::made;
use crate::writing::written;
use bt_outside::{Disk, LinkFailed, Links};
use bt_store::Store;
use std::alloc::Global;

/// What came of a line.
#[derive(Clone, Copy, Debug, PartialEq, Eq)]
pub enum Handled {
    /// The reply was written whole.
    Answered,
    /// The link failed, perhaps in the middle of the reply. The change of the line, if it has
    /// one, is made.
    LinkLost,
    /// A write, a cut or a sync of the disk failed: the first ones of the line's records are there,
    /// or none, and the store is only dropped. The link may have failed too.
    DiskEnded,
}

/// Answers a line at the moment used for it, in microseconds since 1970. The records of its change
/// are on the disk before its reply is written, each whole or not at all. A record that is too large
/// is refused, with those behind it. Want of memory is answered too, by a constant line with code 8:
/// the record at which memory ran out is not there, nor those behind it. The responses of a read are
/// written one by one, each as soon as it is whole; want of memory may come behind some of them.
pub fn handle<D: Disk, L: Links<D>>(
    alloc: Global,
    store: &mut Store,
    disk: &mut D,
    line: &[u8],
    moment: u64,
    links: &mut L,
) -> Handled
    requires at_hand { L.tells → IsSome (L.at_hand links.old) }
    requires stands { D.tells → (s : State) × Stands store.old s (D.held disk.old) (D.may_leave disk.old) }
    requires not_before { store.old.present.floor ≤ moment }
    requires not_past { moment ≤ last_moment }
    ensures turn { D.tells → L.tells → (s : State) → Stands store.old s (D.held disk.old) (D.may_leave disk.old) → Turned D.Disk result store.old.limits s line.now moment disk.old disk.new store.new (L.sent links.old) (L.sent links.new) (L.faults links.old) (L.faults links.new) }
    ensures usable { D.tells → IsUsableAfter D.Disk result store.new disk.new }
    ensures keeps { L.tells → KeepsConnections (L.left links.old) (L.left links.new) (L.at_hand links.old) (L.at_hand links.new) }
    ensures limits { store.new.limits ≡ store.old.limits }

    // When each answer comes.
    ensures link_lost { result ≡ Handled.LinkLost → Risen (L.faults links.old) (L.faults links.new) }
    ensures disk { DiskCounted D.Disk result disk.old disk.new }
    ensures links { LinksCounted result (L.faults links.old) (L.faults links.new) }
    ensures next_faults { L.next_faults links.new ≡ L.next_faults links.old }
{
    let outcome = made(alloc, store, disk, line, moment);
    let has_ended = outcome.has_ended();
    let written = written(alloc, store.present(), outcome, links, disk);
    came_of(has_ended, written)
}

fn came_of(has_ended: bool, written: Result<(), LinkFailed>) -> Handled
    ensures { result ≡ handled_by has_ended written }
{
    if has_ended {
        return Handled::DiskEnded;
    }
    match written {
        Ok(()) => Handled::Answered,
        Err(_) => Handled::LinkLost,
    }
}
