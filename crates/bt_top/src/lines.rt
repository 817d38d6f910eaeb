//! The whole lines of what was read.
ghost use Rattle.std.specs.Prelude.{◌≡◌, ◌⊎◌, ℕ, List, None, IsSome};
ghost use Rattle.std.specs.List.{position};
ghost use Rattle.bt_service.specs.Outcomes.{DiskCounted, IsUsableAfter, LinksCounted};
ghost use Rattle.bt_service.specs.Steps.{KeepsConnections};
ghost use Rattle.bt_state.specs.State.{State};
ghost use Rattle.bt_store.specs.Stands.{Stands};
ghost use Rattle.bt_top.specs.Lines.{is_lf, is_blank};
ghost use Rattle.bt_top.specs.Steps.{IsStopped, Goes, Divided, heard};

use crate::buffer::LineBuffer;
use bt_outside::{Clock, Disk, Links};
use bt_service::{Handled, handle};
use bt_store::Store;
use std::alloc::Global;

pub fn is_blank(line: &[u8]) -> bool
    ensures { result ≡ is_blank line.now }
{
    line.iter()
        .all(|b| *b == b' ' || *b == b'\t' || *b == b'\r')
}

// Answers a line that ended. A blank one is skipped, and the clock is not read for it.
fn hear<D: Disk, L: Links<D>, C: Clock>(
    alloc: Global,
    store: &mut Store,
    disk: &mut D,
    piece: &[u8],
    links: &mut L,
    clock: &mut C,
) -> Handled
    requires at_hand { L.tells → IsSome (L.at_hand links.old) }
    requires stands { D.tells → (s : State) × Stands store.old s (D.held disk.old) (D.may_leave disk.old) }
    ensures tells { C.tells clock.new → C.tells clock.old }
    ensures lines { D.tells → L.tells → C.tells clock.new → (s : State) → Stands store.old s (D.held disk.old) (D.may_leave disk.old) → Goes D.Disk result store.old.limits s store.new disk.old disk.new (L.sent links.old) (L.sent links.new) (C.told clock.old) (C.told clock.new) (L.faults links.old) (L.faults links.new) (heard piece.now) }
    ensures usable { D.tells → IsUsableAfter D.Disk result store.new disk.new }
    ensures keeps { L.tells → KeepsConnections (L.left links.old) (L.left links.new) (L.at_hand links.old) (L.at_hand links.new) }
    ensures limits { store.new.limits ≡ store.old.limits }
    ensures disk { DiskCounted D.Disk result disk.old disk.new }
    ensures faults { LinksCounted result (L.faults links.old) (L.faults links.new) }
    ensures next_faults { L.next_faults links.new ≡ L.next_faults links.old }
{
    if is_blank(piece) {
        return Handled::Answered;
    }
    let moment = store.moment_used(clock.now());
    handle(alloc, store, disk, piece, moment, links)
}

/// Answers each whole line, up to one at which the link or the disk fails.
pub fn whole_lines<D: Disk, L: Links<D>, C: Clock>(
    alloc: Global,
    store: &mut Store,
    disk: &mut D,
    buffer: &mut LineBuffer,
    links: &mut L,
    clock: &mut C,
) -> Handled
    requires at_hand { L.tells → IsSome (L.at_hand links.old) }
    requires stands { D.tells → (s : State) × Stands store.old s (D.held disk.old) (D.may_leave disk.old) }
    ensures tells { C.tells clock.new → C.tells clock.old }
    ensures lines { D.tells → L.tells → C.tells clock.new → (s : State) → Stands store.old s (D.held disk.old) (D.may_leave disk.old) → (lines : List (List ℕ)) × Goes D.Disk result store.old.limits s store.new disk.old disk.new (L.sent links.old) (L.sent links.new) (C.told clock.old) (C.told clock.new) (L.faults links.old) (L.faults links.new) lines × Divided result buffer.old.most buffer.old.text buffer.new.text lines }
    ensures rest { IsStopped result ⊎ (position is_lf buffer.new.text ≡ None) }
    ensures most { buffer.new.most ≡ buffer.old.most }
    ensures usable { D.tells → IsUsableAfter D.Disk result store.new disk.new }
    ensures keeps { L.tells → KeepsConnections (L.left links.old) (L.left links.new) (L.at_hand links.old) (L.at_hand links.new) }
    ensures limits { store.new.limits ≡ store.old.limits }
    ensures disk { DiskCounted D.Disk result disk.old disk.new }
    ensures faults { LinksCounted result (L.faults links.old) (L.faults links.new) }
    ensures next_faults { L.next_faults links.new ≡ L.next_faults links.old }
{
    while let Some(at) = buffer.line_end() {
        match hear(alloc, store, disk, &buffer.text()[..at], links, clock) {
            Handled::Answered => {}
            stopped => return stopped,
        }
        buffer.skip(at + 1);
    }
    Handled::Answered
}
