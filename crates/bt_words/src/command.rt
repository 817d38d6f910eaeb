//! The commands, and why words are none.

use bt_base::{Blob, OutOfMemory};
use std::alloc::AllocError;

/// What the program is asked to do.
#[derive(Debug, Drop)]
pub enum Command {
    /// Serves standard input and output as one connection, with the data in this folder.
    Run {
        folder: Blob,
    },
    /// Serves so many connections of a TCP listener at that address, one after another.
    Serve {
        folder: Blob,
        address: Blob,
        count: u32,
    },
}

/// Why words are no command.
#[derive(Clone, Copy, Debug, PartialEq, Eq)]
pub enum WordsRefusal {
    /// The words are none of the commands.
    Usage,
    /// An allocation was refused.
    OutOfMemory,
}

impl From<AllocError> for WordsRefusal {
    ghost use Rattle.std.specs.Prelude.{◌≡◌};
    ghost use Rattle.bt_words.specs.declared.command.WordsRefusal.TheVariants.{OutOfMemory};

    ghost from_gives = { λ _ refusal. refusal ≡ OutOfMemory };

    fn from(_: AllocError) -> WordsRefusal {
        WordsRefusal::OutOfMemory
    }
}

impl From<OutOfMemory> for WordsRefusal {
    ghost use Rattle.std.specs.Prelude.{◌≡◌};
    ghost use Rattle.bt_words.specs.declared.command.WordsRefusal.TheVariants.{OutOfMemory};

    ghost from_gives = { λ _ refusal. refusal ≡ OutOfMemory };

    fn from(_: OutOfMemory) -> WordsRefusal {
        WordsRefusal::OutOfMemory
    }
}
