//! What came of a line, written to the connection.
ghost use Rattle.std.specs.Prelude.{◌≡◌, IsSome};
ghost use Rattle.bt_base.specs.Counts.{Counts};
ghost use Rattle.bt_plans.specs.Plans.{read_reply};
ghost use Rattle.bt_send.specs.Reads.{read_lines};
ghost use Rattle.bt_send.specs.Writes.{Sends, has_failed};
ghost use Rattle.bt_service.specs.Outcomes.{SaysSo};

use crate::outcome::Outcome;
use bt_outside::{Disk, LinkFailed, Links};
use bt_plans::ReadPlan;
use bt_scan::Scan;
use bt_send::{send, send_read};
use bt_state::Present;
use std::alloc::Global;

/// Writes the reply of a line to the connection at hand.
pub(crate) fn written<D: Disk, L: Links<D>>(
    alloc: Global,
    present: &Present,
    outcome: Outcome,
    links: &mut L,
    disk: &D,
) -> Result<(), LinkFailed>
    requires { L.tells → IsSome (L.at_hand links.old) }
    ensures sends { L.tells → Sends (SaysSo present.now outcome) (has_failed result) (D.moment disk.now) (L.sent links.old) (L.sent links.new) }
    ensures faults { Counts (L.faults links.old) (L.faults links.new) result }
    ensures next_faults { L.next_faults links.new ≡ L.next_faults links.old }
    ensures left { L.tells → L.left links.new ≡ L.left links.old }
    ensures at_hand { L.tells → L.at_hand links.new ≡ L.at_hand links.old }
{
    match outcome {
        Outcome::Says { answer, .. } => send(answer.bytes(), links, disk),
        Outcome::Reads(read) => {
            let mut scan = scan_of(alloc, present, read);
            send_read(alloc, &mut scan, links, disk)
        }
    }
}

// The rows that are read, response by response.
fn scan_of<'a>(alloc: Global, present: &'a Present, read: ReadPlan) -> Scan<'a>
    ensures { read_lines result ≡ (read_reply present.now read).responses }
{
    let table = present.rows_of(read.incarnation);
    Scan::new(alloc, table, read.rows, read.node, read.rows_limit)
}
