//! Why a request is refused.
ghost use Rattle.std.specs.Prelude.{◌≡◌, option_map, IfOk};
ghost use Rattle.bt_json.specs.View.{view};
ghost use Rattle.bt_walk.specs.declared.found.Pass.TheVariants.{ForUnsupported, ForBad};
ghost use Rattle.bt_requests.specs.Refusals.{first_fault, members_refusal};

use bt_base::{Blob, OutOfMemory};
use bt_json::Value;
use bt_members::Messages;
use bt_walk::{Faults, Many, Shape, faults};
use std::alloc::Global;

/// Why a request is refused. A name is that of the first member at fault in preorder.
#[derive(Debug, Drop)]
pub enum RequestRefusal {
    /// No request of this method is served yet.
    NotBuilt,
    /// A member that is not served, with a value that does not count as absent.
    Unsupported { name: Blob },
    /// A value outside its type, an unknown member, a member by both its names, or a second member
    /// of one oneof.
    BadField { name: Blob },
    /// The name of the table or of its instance is not lawful.
    BadName,
    OutOfMemory,
}

impl From<OutOfMemory> for RequestRefusal {
    ghost use Rattle.std.specs.Prelude.{◌≡◌};
    ghost use Rattle.bt_requests.specs.declared.refusal.RequestRefusal.TheVariants as refusal;

    ghost from_gives = { λ _ e. e ≡ refusal.OutOfMemory };

    fn from(_: OutOfMemory) -> RequestRefusal {
        RequestRefusal::OutOfMemory
    }
}

/// The refusal of a message for its members: the first that is not supported, or else the first bad
/// field.
pub(crate) fn members_refusal(
    alloc: Global,
    message: u8,
    value: &Value<'_>,
) -> Result<Option<RequestRefusal>, OutOfMemory>
    ensures { IfOk result (λ r. r ≡ members_refusal message (view value.now)) }
{
    let found = first_faults(message, value);
    if let Some(name) = found.unsupported {
        let name = Blob::new(alloc, name.as_bytes())?;
        return Ok(Some(RequestRefusal::Unsupported { name }));
    }
    if let Some(name) = found.bad {
        let name = Blob::new(alloc, name.as_bytes())?;
        return Ok(Some(RequestRefusal::BadField { name }));
    }
    Ok(None)
}

#[tactic(auto, unfolding(crate::specs::Refusals::first_fault))]
fn first_faults<'v>(message: u8, value: &'v Value<'_>) -> Faults<'v>
    ensures unsupported { option_map (λ n. n.now) result.unsupported
        ≡ first_fault ForUnsupported message (view value.now) }
    ensures bad { option_map (λ n. n.now) result.bad
        ≡ first_fault ForBad message (view value.now) }
{
    faults(&Messages, Many::One, Shape::Of(message), "request", value)
}
