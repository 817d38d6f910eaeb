//! Lines of replies.
ghost use Rattle.std.specs.Prelude.{◌≡◌, ◌++◌, false, IfOk, OnOk};
ghost use Rattle.serde_json.specs.View.{view};
ghost use Rattle.serde_json.specs.Written.{has_float};
ghost use Rattle.bt_messages.specs.Lines.{line_of, response_data, ok_line};
ghost use Rattle.bt_messages.specs.Responses.{shown};
ghost use Rattle.bt_messages.specs.declared.response.Response.TheVariants.{MutateRow};

use bt_base::OutOfMemory;
use serde_json::Value;
use std::alloc::Global;

/// The lines of a request that was served and has nothing to show: an empty response, and the
/// status of success. They take no memory.
#[tactic(auto, unfolding(crate::proofs::LineTexts::line_on_literals))]
pub fn empty_lines() -> &'static [u8]
    ensures { result.now ≡ line_of (response_data (shown MutateRow)) ++ ok_line }
{
    b"{\"response\":{}}\n{\"status\":{}}\n"
}

/// The status line of a request that was served, with its line feed. It takes no memory.
#[tactic(auto, unfolding(crate::proofs::LineTexts::line_on_literals))]
pub fn ok_line() -> &'static [u8]
    ensures { result.now ≡ ok_line }
{
    b"{\"status\":{}}\n"
}

// A value as a line.
#[tactic(auto, unfolding(crate::specs::Lines::line_of))]
pub(crate) fn line(alloc: Global, value: &Value) -> Result<Vec<u8>, OutOfMemory>
    requires { has_float (view value.now) ≡ false }
    ensures { IfOk result (λ out. out.items ≡ line_of (view value.now)) }
{
    let mut out = value.to_vec(alloc)?;
    out.push(b'\n')?;
    Ok(out)
}
