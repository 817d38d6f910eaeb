//! The envelope of a request.
ghost use Rattle.std.specs.Prelude.{◌≡◌, option_map};
ghost use Rattle.bt_json.specs.View.{view};
ghost use Rattle.bt_requests.specs.Order.{InOrder};
ghost use Rattle.bt_requests.specs.Envelopes.{Tells, envelope_of, envelope_in, is_envelope, has_method, is_request, has_no_others, method_text, request_in_envelope, or_empty};

use crate::method::Method;
use crate::parsing::{member_count, taken, value_of};
use crate::request_object::RequestObject;
use bt_base::OutOfMemory;
use bt_json::{Scratch, Value};
use std::alloc::Global;

/// Why a line has no request.
#[derive(Clone, Copy, Debug, PartialEq, Eq)]
pub enum LineRefusal {
    /// The line is not UTF-8, or no JSON text (RFC 8259) that `serde_json` reads.
    NotJson,
    /// It is not an object whose only members are `method`, a string, and `request`, an object, null
    /// or absent.
    BadEnvelope,
    /// There is no method of that name.
    UnknownMethod,
    OutOfMemory,
}

impl From<OutOfMemory> for LineRefusal {
    ghost use Rattle.std.specs.Prelude.{◌≡◌};
    ghost use Rattle.bt_requests.specs.declared.envelope.LineRefusal.TheVariants as refusal;

    ghost from_gives = { λ _ e. e ≡ refusal.OutOfMemory };

    fn from(_: OutOfMemory) -> LineRefusal {
        LineRefusal::OutOfMemory
    }
}

/// The method and the request's object of a line `{"method":M,"request":{}}`, which comes without
/// its line feed. Where the request is null or absent, it is an object without members. A string of
/// the value stands in the line, or where it has escapes in `scratch`.
/// Each refusal comes exactly where the one before it does not.
#[tactic(auto, using(crate::proofs::InOrder::read_in_order))]
pub fn read_envelope<'t>(
    alloc: Global,
    line: &'t [u8],
    scratch: &'t mut Scratch,
) -> Result<(Method, RequestObject<'t>), LineRefusal>
    ensures { Tells (envelope_of line.now) result }
{
    match value_of(alloc, line, scratch)? {
        Some(value) => opened(alloc, value),
        None => Err(LineRefusal::NotJson),
    }
}

fn opened<'t>(alloc: Global, value: Value<'t>) -> Result<(Method, RequestObject<'t>), LineRefusal>
    requires in_order { InOrder (view value) }
    ensures { Tells (envelope_in (view value.entry)) result }
{
    if !is_envelope(&value) {
        return Err(LineRefusal::BadEnvelope);
    }
    let Some(method) = Method::named(method_text(&value)) else {
        return Err(LineRefusal::UnknownMethod);
    };
    let request = request_in_envelope(alloc, value);
    Ok((method, RequestObject { value: request }))
}

fn is_envelope(value: &Value<'_>) -> bool
    ensures { result ≡ is_envelope (view value.now) }
{
    has_method(value) && is_request(value.get("request")) && has_no_others(value)
}

fn has_method(value: &Value<'_>) -> bool
    ensures { result ≡ has_method (view value.now) }
{
    match value.get("method") {
        Some(method) => method.as_str().is_some(),
        None => false,
    }
}

fn is_request(request: Option<&Value<'_>>) -> bool
    ensures { result ≡ is_request (option_map (λ v. view v.now) request.entry) }
{
    match request {
        Some(request) => request.is_null() || request.is_object(),
        None => true,
    }
}

fn has_no_others(value: &Value<'_>) -> bool
    ensures { result ≡ has_no_others (view value.now) }
{
    let known = if value.get("request").is_some() { 2 } else { 1 };
    member_count(value) == Some(known)
}

fn method_text<'t>(value: &Value<'t>) -> &'t str
    ensures { result.now ≡ method_text (view value.now) }
{
    match value.get("method") {
        Some(method) => method.as_str().unwrap_or(""),
        None => "",
    }
}

// The request's object, moved out.
fn request_in_envelope<'t>(alloc: Global, value: Value<'t>) -> Value<'t>
    ensures { view result ≡ request_in_envelope (view value.entry) }
{
    match value {
        Value::Object(members) => or_empty(alloc, taken(members, "request")),
        _ => Value::Object(Vec::new(alloc)),
    }
}

fn or_empty<'t>(alloc: Global, request: Option<Value<'t>>) -> Value<'t>
    ensures { view result ≡ or_empty (option_map view request.entry) }
{
    match request {
        Some(Value::Object(members)) => Value::Object(members),
        _ => Value::Object(Vec::new(alloc)),
    }
}
