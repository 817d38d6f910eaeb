//! The value of a column at a time, and what a rule makes of it.
ghost use Rattle.std.specs.Prelude.{◌≡◌, ◌≤◌, length, Some, option_map, Ok, IfOk, IfErr};
ghost use Rattle.bt_entry.specs.Grammar.{last_moment, most_of_value};
ghost use Rattle.bt_rmw.specs.declared.rule.Action.TheVariants.{Append, Increment};
ghost use Rattle.bt_rmw.specs.Held.{stamped_after};
ghost use Rattle.bt_rmw.specs.Modified.{bytes_of, time_after, value_after};
ghost use Rattle.bt_rmw.specs.Rules.{RefusesToModify};

use crate::refusal::ModifyRefusal;
use crate::rule::Action;
use bt_types::Micros;
use std::alloc::Global;
use std::marker::Model;

const MOST_OF_VALUE: usize = 4_194_304;

/// The value of a column at a time.
#[derive(Drop)]
pub(crate) struct Version {
    pub at: Micros,
    pub value: Vec<u8>,
}

impl Model for Version {
    ghost use Rattle.bt_rmw.specs.declared.rule.Action.TheVariants.{Append, Increment};
    ghost use Rattle.bt_rmw.specs.Held.{Stamped};

    ghost Value = { Stamped };

    ghost view = { λ v. (v.at, v.value.items) };
}

/// What the rule of this index makes of what a column has.
pub(crate) fn version_after(
    alloc: Global,
    before: Option<Version>,
    action: Action,
    moment: u64,
    index: u32,
) -> Result<Version, ModifyRefusal>
    requires { moment ≤ last_moment }
    ensures version { IfOk result (λ after. stamped_after moment index action before ≡ Ok after) }
    ensures short { IfOk result (λ after. length after.1 ≤ most_of_value) }
    ensures refusal { IfErr result (λ why. RefusesToModify (stamped_after moment index action before) why) }
{
    let (at, value) = match before {
        Some(Version { at, value }) => (time_after(moment, Some(at)), Some(value)),
        None => (time_after(moment, None), None),
    };
    let value = value_after(alloc, value, action, index)?;
    Ok(Version { at, value })
}

fn time_after(moment: u64, before: Option<Micros>) -> Micros
    requires { moment ≤ last_moment }
    ensures { result ≡ time_after moment before }
{
    let cut = (moment - moment % 1000) as i64;
    match before {
        Some(before) if before.number() > cut => before,
        _ => match Micros::new(cut) {
            Some(at) => at,
            None => unreachable!(),
        },
    }
}

fn value_after(
    alloc: Global,
    before: Option<Vec<u8>>,
    action: Action,
    index: u32,
) -> Result<Vec<u8>, ModifyRefusal>
    ensures value { IfOk result (λ after. value_after index action (option_map (λ v. v.items) before) ≡ Ok after.items) }
    ensures short { IfOk result (λ after. length after.items ≤ most_of_value) }
    ensures refusal { IfErr result (λ why. RefusesToModify (value_after index action (option_map (λ v. v.items) before)) why) }
{
    match action {
        Action::Append(more) => {
            let value = before.unwrap_or(Vec::new(alloc));
            appended(value, more.bytes(), index)
        }
        Action::Increment(amount) => {
            let sum = incremented(before, amount, index)?;
            let bytes = Vec::from_slice(alloc, &sum.to_be_bytes());
            bytes.map_err(|_| ModifyRefusal::OutOfMemory)
        }
    }
}

// The bytes are put behind the value in its own memory.
fn appended(value: Vec<u8>, more: &[u8], index: u32) -> Result<Vec<u8>, ModifyRefusal>
    ensures value { IfOk result (λ after. value_after index (Append more.now) (Some value.items) ≡ Ok after.items) }
    ensures short { IfOk result (λ after. length after.items ≤ most_of_value) }
    ensures refusal { IfErr result (λ why. RefusesToModify (value_after index (Append more.now) (Some value.items)) why) }
{
    let mut value = value;
    if value.len() + more.len() > MOST_OF_VALUE {
        return Err(ModifyRefusal::ValueTooLarge { index });
    }
    match value.extend_from_slice(more) {
        Ok(()) => Ok(value),
        Err(_) => Err(ModifyRefusal::OutOfMemory),
    }
}

fn incremented(before: Option<Vec<u8>>, amount: i64, index: u32) -> Result<i64, ModifyRefusal>
    ensures sum { IfOk result (λ sum. value_after index (Increment amount) (option_map (λ v. v.items) before) ≡ Ok (bytes_of sum)) }
    ensures refusal { IfErr result (λ why. RefusesToModify (value_after index (Increment amount) (option_map (λ v. v.items) before)) why) }
{
    let Some(value) = before else {
        return Ok(amount);
    };
    let Some(bytes) = value.as_array::<8>() else {
        return Err(ModifyRefusal::NotEightBytes { index });
    };
    match i64::from_be_bytes(*bytes).checked_add(amount) {
        Some(sum) => Ok(sum),
        None => Err(ModifyRefusal::IncrementRange { index }),
    }
}
