//! The object of a request.
ghost use Rattle.bt_json.specs.View.{view};
ghost use Rattle.bt_requests.specs.Order.{InOrder};

use bt_json::Value;

/// The object of a request, as a line has it.
#[derive(Debug, Drop)]
pub struct RequestObject<'t> {
    pub value: Value<'t>,
    ghost in_order: { ∥ InOrder (view value) ∥₁ },
}
