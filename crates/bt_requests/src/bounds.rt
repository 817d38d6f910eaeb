//! Bounds of ranges as requests ask for them.
ghost use Rattle.std.specs.Prelude.{◌≡◌, IfOk, option_map};
ghost use Rattle.bt_json.specs.View.{view};
ghost use Rattle.bt_requests.specs.Bounds.{bound_of};

use bt_base::OutOfMemory;
use bt_json::Value;
use bt_members::bytes_or_empty;
use bt_range::Bound;
use std::alloc::Global;

/// A bound by whichever of two values is there.
pub(crate) fn bound_of(
    alloc: Global,
    closed: Option<&Value<'_>>,
    past: Option<&Value<'_>>,
) -> Result<Bound, OutOfMemory>
    ensures { IfOk result (λ b. b ≡ bound_of (option_map (λ v. view v.now) closed.entry) (option_map (λ v. view v.now) past.entry)) }
{
    if let Some(found) = closed {
        return Ok(Bound::Closed(bytes_or_empty(alloc, found)?));
    }
    if let Some(found) = past {
        return Ok(Bound::Past(bytes_or_empty(alloc, found)?));
    }
    Ok(Bound::Unset)
}
