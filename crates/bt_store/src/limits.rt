//! How much is allowed.
ghost use Rattle.std.specs.Prelude.{◌≡◌};

/// How much a request, a connection, a record and a flush may take.
#[derive(Clone, Copy, Debug, PartialEq, Eq)]
pub struct Limits {
    /// The bytes of a line of a connection.
    pub line: u32,
    /// The bytes of a connection.
    pub connection: u64,
    /// The bytes of the body of a record of the log.
    pub body: u32,
    /// The bytes in memory from which on rows are written to sorted files.
    pub flush: u64,
    /// The sorted files of a table from which on they are merged.
    pub files: u32,
    /// The rows that are read in one go.
    pub slice: u32,
    /// The blocks that are kept in memory.
    pub blocks: u32,
}

impl Limits {
    /// The limits of the service.
    pub fn standard() -> Limits
        ensures { result ≡ (record { line = 16777216; connection = 1099511627776; body = 1073741824; flush = 4194304; files = 4; slice = 256; blocks = 64 }) }
    {
        Limits {
            line: 16_777_216,
            connection: 1_099_511_627_776,
            body: 1_073_741_824,
            flush: 4_194_304,
            files: 4,
            slice: 256,
            blocks: 64,
        }
    }
}
