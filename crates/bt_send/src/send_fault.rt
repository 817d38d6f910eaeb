//! Why a reply was not written whole.
ghost use Rattle.std.specs.Prelude.{◌≡◌};

use bt_base::OutOfMemory;
use bt_outside::LinkFailed;

/// Why the responses of a read were not all written.
#[derive(Clone, Copy, Debug)]
pub(crate) enum SendFault {
    LinkFailed,
    OutOfMemory,
}

impl From<OutOfMemory> for SendFault {
    ghost use Rattle.bt_send.specs.declared.send_fault.SendFault.TheVariants.{OutOfMemory};

    ghost from_gives = { λ _ fault. fault ≡ OutOfMemory };

    fn from(_: OutOfMemory) -> Self {
        SendFault::OutOfMemory
    }
}

impl From<LinkFailed> for SendFault {
    ghost use Rattle.bt_send.specs.declared.send_fault.SendFault.TheVariants.{LinkFailed};

    ghost from_gives = { λ _ fault. fault ≡ LinkFailed };

    fn from(_: LinkFailed) -> Self {
        SendFault::LinkFailed
    }
}
