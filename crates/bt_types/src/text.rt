//! A text.
ghost use Rattle.std.specs.Prelude.{◌≡◌, IfOk};

use bt_base::{OutOfMemory, Plain};
use std::alloc::Global;
use std::marker::Model;

/// A text in UTF-8. A contract sees the list of its bytes.
#[derive(Debug, Drop)]
pub struct Text {
    held: String,
}

impl Model for Text {
    ghost use Rattle.std.specs.Prelude.{List, ℕ, string_bytes};

    ghost Value = { List ℕ };

    ghost view = { λ t. string_bytes t.held };
}

impl Text {
    pub fn new(alloc: Global, text: &str) -> Result<Text, OutOfMemory>
        ensures { IfOk result (λ t. t ≡ text.now) }
    {
        let held = String::from_str(alloc, text)?;
        Ok(Text { held })
    }

    pub fn text(&self) -> &str
        ensures { result.now ≡ self.now }
    {
        self.held.as_str()
    }
}

impl Plain for Text {
    fn copy(&self, alloc: Global) -> Result<Text, OutOfMemory> {
        Text::new(alloc, self.held.as_str())
    }
}
