//! The name of a column within its family.
ghost use Rattle.std.specs.Prelude.{◌≡◌, IsTrue, IfOk};
ghost use Rattle.bt_types.specs.Grammar.{lawful, is_qualifier};

use bt_base::{Blob, OutOfMemory, Plain};
use std::alloc::Global;
use std::marker::Model;

const MOST_BYTES: usize = 16384;

/// The name of a column within its family: at most 16,384 bytes, none among them
/// (`google.bigtable.v2.Column.qualifier`). A contract sees its bytes.
#[derive(Debug, Drop)]
pub struct Qualifier {
    held: Vec<u8>,
}

impl Model for Qualifier {
    ghost use Rattle.std.specs.Prelude.{List, ℕ, IsTrue};
    ghost use Rattle.bt_types.specs.Grammar.{is_qualifier};

    ghost Value = { List ℕ };

    ghost view = { λ n. n.held.items };

    ghost invariant = { λ n. IsTrue (is_qualifier n.held.items) };
}

impl Qualifier {
    /// The qualifier that the bytes are, or `None` where they are too many.
    pub fn new(alloc: Global, bytes: &[u8]) -> Result<Option<Qualifier>, OutOfMemory>
        ensures { IfOk result (λ name. name ≡ lawful is_qualifier bytes.now) }
    {
        if bytes.len() > MOST_BYTES {
            return Ok(None);
        }
        let held = Vec::from_slice(alloc, bytes)?;
        Ok(Some(Qualifier { held }))
    }

    /// The same without a copy.
    pub fn from_blob(bytes: Blob) -> Option<Qualifier>
        ensures { result ≡ lawful is_qualifier bytes }
    {
        let held = bytes.into_vec();
        if held.len() > MOST_BYTES {
            return None;
        }
        Some(Qualifier { held })
    }

    pub fn bytes(&self) -> &[u8]
        ensures value { result.now ≡ self.now }
        ensures lawful { IsTrue (is_qualifier self.now) }
    {
        &self.held
    }
}

impl Plain for Qualifier {
    fn copy(&self, alloc: Global) -> Result<Qualifier, OutOfMemory> {
        let held = Vec::from_slice(alloc, &self.held)?;
        Ok(Qualifier { held })
    }
}
