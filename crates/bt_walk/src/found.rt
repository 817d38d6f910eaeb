//! What the walk looks for, and what it finds.
ghost use Rattle.std.specs.Prelude.{◌≡◌, option_map};
ghost use Rattle.bt_walk.specs.Faults.{told, first, fault_at, name_of};

/// What is looked for.
#[derive(Clone, Copy)]
pub enum Pass {
    /// The first member that is not supported. It goes down only where the shape is right.
    ForUnsupported,
    /// The first bad field: a value outside its shape, an unknown member, a member by both its
    /// names, or a second member of one oneof.
    ForBad,
}

/// The first fault of each pass.
#[derive(Clone, Copy)]
pub struct Faults<'v> {
    pub unsupported: Option<&'v str>,
    pub bad: Option<&'v str>,
}

/// A fault at a member of an object: the member's JSON name, and the name that is told.
#[derive(Clone, Copy)]
pub(crate) struct Found<'v> {
    pub place: &'v str,
    pub name: &'v str,
}

// The one at the lesser place.
pub(crate) fn first<'v>(before: Option<Found<'v>>, here: Option<Found<'v>>) -> Option<Found<'v>>
    ensures { option_map told result
        ≡ first (option_map told before.entry) (option_map told here.entry) }
{
    match (before, here) {
        (None, here) => here,
        (Some(before), None) => Some(before),
        (Some(before), Some(here)) => {
            if here.place < before.place {
                Some(here)
            } else {
                Some(before)
            }
        }
    }
}

pub(crate) fn name_of<'v>(found: Option<Found<'v>>) -> Option<&'v str>
    ensures { option_map (λ n. n.now) result ≡ name_of (option_map told found.entry) }
{
    match found {
        Some(found) => Some(found.name),
        None => None,
    }
}

// What is wrong within the member at this place.
pub(crate) fn within<'v>(place: &'v str, inner: Option<&'v str>) -> Option<Found<'v>>
    ensures { option_map told result
        ≡ option_map (λ n. fault_at place.now n) (option_map (λ n. n.now) inner.entry) }
{
    match inner {
        Some(name) => Some(Found { place, name }),
        None => None,
    }
}
