//! The reply of a read, response by response.
ghost use Rattle.std.specs.Prelude.{◌≡◌, IsSome};
ghost use Rattle.bt_base.specs.Counts.{Counts};
ghost use Rattle.bt_send.specs.Reads.{CountsLink, ReadGoes, WroteSo, read_lines};
ghost use Rattle.bt_send.specs.Writes.{Sends, has_failed};

use crate::send_fault::SendFault;
use crate::whole::send;
use bt_messages::{Refusal, Response, ok_line, response_line};
use bt_outside::{Disk, LinkFailed, Links};
use bt_scan::Scan;
use std::alloc::Global;

/// Writes the responses of a read to the connection at hand, each as soon as it is whole, and then
/// the status of success. Where memory runs out on the way, its refusal comes behind the responses
/// that were written already.
pub fn send_read<D: Disk, L: Links<D>>(
    alloc: Global,
    scan: &mut Scan,
    links: &mut L,
    disk: &D,
) -> Result<(), LinkFailed>
    requires { L.tells → IsSome (L.at_hand links.old) }
    ensures sends { L.tells → Sends (ReadGoes (read_lines scan.old)) (has_failed result) (D.moment disk.now) (L.sent links.old) (L.sent links.new) }
    ensures faults { Counts (L.faults links.old) (L.faults links.new) result }
    ensures next_faults { L.next_faults links.new ≡ L.next_faults links.old }
    ensures left { L.tells → L.left links.new ≡ L.left links.old }
    ensures at_hand { L.tells → L.at_hand links.new ≡ L.at_hand links.old }
{
    match send_responses(alloc, scan, links, disk) {
        Ok(()) => send(ok_line(), links, disk),
        Err(SendFault::OutOfMemory) => send(Refusal::OutOfMemory.line(), links, disk),
        Err(SendFault::LinkFailed) => Err(LinkFailed),
    }
}

fn send_responses<D: Disk, L: Links<D>>(
    alloc: Global,
    scan: &mut Scan,
    links: &mut L,
    disk: &D,
) -> Result<(), SendFault>
    requires { L.tells → IsSome (L.at_hand links.old) }
    ensures wrote { L.tells → WroteSo (read_lines scan.old) result (D.moment disk.now) (L.sent links.old) (L.sent links.new) }
    ensures faults { CountsLink result (L.faults links.old) (L.faults links.new) }
    ensures next_faults { L.next_faults links.new ≡ L.next_faults links.old }
    ensures left { L.tells → L.left links.new ≡ L.left links.old }
    ensures at_hand { L.tells → L.at_hand links.new ≡ L.at_hand links.old }
{
    while let Some(chunks) = scan.next_response()? {
        let line = response_line(alloc, &Response::ReadRows(chunks))?;
        send(line.bytes(), links, disk)?;
    }
    Ok(())
}
