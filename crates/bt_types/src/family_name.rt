//! The name of a column family.
ghost use Rattle.std.specs.Prelude.{◌≡◌, IsTrue, IfOk};
ghost use Rattle.bt_types.specs.Grammar.{lawful, is_family_name};

use crate::bytes_of_names::is_family;
use bt_base::{OutOfMemory, Plain};
use std::alloc::Global;
use std::marker::Model;
use std::str;

/// The name of a column family: 1 to 64 characters of `[-_.a-zA-Z0-9]`
/// (`google.bigtable.v2.Family.name`). A contract sees its bytes.
#[derive(Debug, Drop)]
pub struct FamilyName {
    held: String,
}

impl Model for FamilyName {
    ghost use Rattle.std.specs.Prelude.{List, ℕ, IsTrue, string_bytes};
    ghost use Rattle.bt_types.specs.Grammar.{is_family_name};

    ghost Value = { List ℕ };

    ghost view = { λ n. string_bytes n.held };

    ghost invariant = { λ n. IsTrue (is_family_name (string_bytes n.held)) };
}

impl FamilyName {
    /// The name that the text is, or `None` where it is none.
    pub fn new(alloc: Global, text: &str) -> Result<Option<FamilyName>, OutOfMemory>
        ensures { IfOk result (λ name. name ≡ lawful is_family_name text.now) }
    {
        if !is_family(text.as_bytes()) {
            return Ok(None);
        }
        let held = String::from_str(alloc, text)?;
        Ok(Some(FamilyName { held }))
    }

    /// The name that the bytes are, or `None` where they are none. A name is ASCII, so what is no
    /// UTF-8 is none.
    #[tactic(auto, using(crate::proofs::LawfulNames::is_no_family))]
    pub fn from_bytes(alloc: Global, bytes: &[u8]) -> Result<Option<FamilyName>, OutOfMemory>
        ensures { IfOk result (λ name. name ≡ lawful is_family_name bytes.now) }
    {
        match str::from_utf8(bytes) {
            Ok(text) => FamilyName::new(alloc, text),
            Err(_) => Ok(None),
        }
    }

    pub fn bytes(&self) -> &[u8]
        ensures value { result.now ≡ self.now }
        ensures lawful { IsTrue (is_family_name self.now) }
    {
        self.held.as_bytes()
    }

    pub fn text(&self) -> &str
        ensures { result.now ≡ self.now }
    {
        self.held.as_str()
    }
}

impl Plain for FamilyName {
    fn copy(&self, alloc: Global) -> Result<FamilyName, OutOfMemory> {
        let held = String::from_str(alloc, self.held.as_str())?;
        Ok(FamilyName { held })
    }
}
