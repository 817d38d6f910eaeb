//! A label of a cell.
ghost use Rattle.std.specs.Prelude.{◌≡◌, IsTrue, IfOk};
ghost use Rattle.bt_types.specs.Grammar.{lawful, is_label};

use crate::bytes_of_names::is_label;
use bt_base::{OutOfMemory, Plain};
use std::alloc::Global;
use std::marker::Model;

/// A label that a filter puts on cells: 1 to 15 characters of `[a-z0-9\-]`
/// (`google.bigtable.v2.RowFilter.apply_label_transformer`). A contract sees its bytes.
#[derive(Debug, Drop)]
pub struct Label {
    held: String,
}

impl Model for Label {
    ghost use Rattle.std.specs.Prelude.{List, ℕ, IsTrue, string_bytes};
    ghost use Rattle.bt_types.specs.Grammar.{is_label};

    ghost Value = { List ℕ };

    ghost view = { λ n. string_bytes n.held };

    ghost invariant = { λ n. IsTrue (is_label (string_bytes n.held)) };
}

impl Label {
    /// The label that the text is, or `None` where it is none.
    pub fn new(alloc: Global, text: &str) -> Result<Option<Label>, OutOfMemory>
        ensures { IfOk result (λ name. name ≡ lawful is_label text.now) }
    {
        if !is_label(text.as_bytes()) {
            return Ok(None);
        }
        let held = String::from_str(alloc, text)?;
        Ok(Some(Label { held }))
    }

    pub fn bytes(&self) -> &[u8]
        ensures value { result.now ≡ self.now }
        ensures lawful { IsTrue (is_label self.now) }
    {
        self.held.as_bytes()
    }

    pub fn text(&self) -> &str
        ensures { result.now ≡ self.now }
    {
        self.held.as_str()
    }
}

impl Plain for Label {
    fn copy(&self, alloc: Global) -> Result<Label, OutOfMemory> {
        let held = String::from_str(alloc, self.held.as_str())?;
        Ok(Label { held })
    }
}
