//! A reply in one piece.
ghost use Rattle.std.specs.Prelude.{◌≡◌, IsSome};
ghost use Rattle.bt_base.specs.Counts.{Counts};
ghost use Rattle.bt_send.specs.Writes.{Sends, has_failed};

use bt_outside::{Disk, LinkFailed, Links};

/// Writes a reply to the connection at hand. After a failure a prefix of it was written, and the
/// connection is marked.
pub fn send<D: Disk, L: Links<D>>(bytes: &[u8], links: &mut L, disk: &D) -> Result<(), LinkFailed>
    requires { L.tells → IsSome (L.at_hand links.old) }
    ensures sends { L.tells → Sends (λ out. out ≡ bytes.now) (has_failed result) (D.moment disk.now) (L.sent links.old) (L.sent links.new) }
    ensures faults { Counts (L.faults links.old) (L.faults links.new) result }
    ensures next_faults { L.next_faults links.new ≡ L.next_faults links.old }
    ensures left { L.tells → L.left links.new ≡ L.left links.old }
    ensures at_hand { L.tells → L.at_hand links.new ≡ L.at_hand links.old }
{
    links.write(bytes, disk)
}
