ghost use Rattle.std.specs.Prelude.{◌≡◌, IfOk};

use crate::OutOfMemory;
use std::alloc::Global;

/// Plain data that owns its parts.
pub trait Plain: Drop {
    /// A copy that equals its source.
    fn copy(&self, alloc: Global) -> Result<Self, OutOfMemory>
        ensures { IfOk result (λ copy. copy ≡ self.now) };
}
