//! Why a field is refused.
use bt_base::Blob;
use std::alloc::Global;

/// The value is outside the grammar of the field's type, or memory ran out.
#[derive(Debug, Drop)]
pub enum FieldRefusal {
    /// The name that the caller gave the field.
    BadField { name: Blob },
    OutOfMemory,
}

impl FieldRefusal {
    ghost use Rattle.std.specs.Prelude.{None, ℕ};
    ghost use Rattle.bt_text.specs.Refusal.{Refuses};

    pub(crate) fn bad_field(alloc: Global, name: &str) -> FieldRefusal
        ensures { Refuses {A = ℕ} name.now None result }
    {
        match Blob::new(alloc, name.as_bytes()) {
            Ok(name) => FieldRefusal::BadField { name },
            Err(_) => FieldRefusal::OutOfMemory,
        }
    }
}
