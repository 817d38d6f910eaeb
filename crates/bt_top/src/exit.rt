//! How the program ends.
ghost use Rattle.std.specs.Prelude.{◌≡◌};
ghost use Rattle.bt_top.specs.Ends.{exit_status};

/// How a run ended.
#[derive(Clone, Copy, Debug, PartialEq, Eq)]
pub enum Exit {
    /// All connections that were asked for were served, or no further one came.
    Done,
    /// The words of the command line are none that the program knows.
    Usage,
    /// An allocation was refused before a connection was taken.
    OutOfMemory,
    /// A call of the disk failed while the tables were loaded, or a write, a cut or a sync while a
    /// line was handled.
    DiskFault,
    /// The bytes of a file are outside their format from that place on. Nothing was served.
    Damaged { file: u64, at: u64 },
    /// The next connection could not be had.
    LinkFault,
}

impl Exit {
    /// The exit status of the process.
    pub fn status(self) -> u8
        ensures { result ≡ exit_status self }
    {
        match self {
            Exit::Done => 0,
            Exit::Usage => 2,
            Exit::OutOfMemory => 3,
            Exit::DiskFault => 4,
            Exit::Damaged { .. } => 5,
            Exit::LinkFault => 6,
        }
    }
}
