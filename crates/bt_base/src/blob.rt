ghost use Rattle.std.specs.Prelude.{◌≡◌, IfOk};

use crate::{OutOfMemory, Plain};
use std::alloc::Global;
use std::marker::Model;

/// Bytes that it owns. A contract sees the list of them.
#[derive(Debug, Drop)]
pub struct Blob {
    held: Vec<u8>,
}

impl Model for Blob {
    ghost use Rattle.std.specs.Prelude.{List, ℕ};

    ghost Value = { List ℕ };

    ghost view = { λ b. b.held.items };
}

impl Blob {
    /// A copy of these bytes.
    pub fn new(alloc: Global, bytes: &[u8]) -> Result<Blob, OutOfMemory>
        ensures { IfOk result (λ blob. blob ≡ bytes.now) }
    {
        let held = Vec::from_slice(alloc, bytes)?;
        Ok(Blob { held })
    }

    /// These bytes, without a copy.
    pub fn from_vec(held: Vec<u8>) -> Blob
        ensures { result ≡ held.items }
    {
        Blob { held }
    }

    /// The bytes, without a copy.
    pub fn into_vec(self) -> Vec<u8>
        ensures { result.items ≡ self }
    {
        self.held
    }

    pub fn bytes(&self) -> &[u8]
        ensures { result.now ≡ self.now }
    {
        &self.held
    }
}

impl Plain for Blob {
    fn copy(&self, alloc: Global) -> Result<Blob, OutOfMemory> {
        Blob::new(alloc, &self.held)
    }
}
