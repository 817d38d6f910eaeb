//! The mutations of a row, read from the left.
ghost use Rattle.std.specs.Prelude.{nat_le};
ghost use Rattle.std.specs.Int.{w32};
ghost use Rattle.bt_codec.specs.Reading.{Gives, counted_at};
ghost use Rattle.bt_entry.specs.Reading.{delete_column_at, delete_family_at, mutation_at, mutations_at, set_cell_at};

use crate::fields::{micros_at, qualifier_at, time_at, value_at};
use crate::names::family_name_at;
use bt_codec::{Fault, count_at, u8_at};
use bt_types::{Mutation, MutationList};
use std::alloc::Global;

#[tactic(auto, unfolding(bt_codec::specs::Reading::counted_at))]
pub(crate) fn mutation_list_at(alloc: Global, bytes: &[u8]) -> Result<(MutationList, &[u8]), Fault>
    ensures { Gives (λ x. (x.0, x.1.now)) result (counted_at w32 (λ n. nat_le 1 n) mutations_at bytes.now) }
{
    let (count, rest) = count_at(bytes)?;
    mutations_at(alloc, count, rest)
}

fn mutations_at(alloc: Global, count: u32, bytes: &[u8]) -> Result<(MutationList, &[u8]), Fault>
    ensures { Gives (λ x. (x.0, x.1.now)) result (mutations_at count bytes.now) }
{
    let mut mutations = MutationList::new(alloc);
    let mut rest = bytes;
    for _ in 0..count {
        let (mutation, after) = mutation_at(alloc, rest)?;
        mutations.push(mutation)?;
        rest = after;
    }
    Ok((mutations, rest))
}

#[tactic(auto, unfolding(crate::specs::Reading::mutation_at))]
fn mutation_at(alloc: Global, bytes: &[u8]) -> Result<(Mutation, &[u8]), Fault>
    ensures { Gives (λ x. (x.0, x.1.now)) result (mutation_at bytes.now) }
{
    let (tag, rest) = u8_at(bytes)?;
    match tag {
        1 => set_cell_at(alloc, rest),
        2 => delete_column_at(alloc, rest),
        3 => delete_family_at(alloc, rest),
        4 => Ok((Mutation::DeleteRow, rest)),
        _ => Err(Fault::Bad { left: bytes.len() }),
    }
}

#[tactic(auto, unfolding(crate::specs::Reading::set_cell_at))]
fn set_cell_at(alloc: Global, bytes: &[u8]) -> Result<(Mutation, &[u8]), Fault>
    ensures { Gives (λ x. (x.0, x.1.now)) result (set_cell_at bytes.now) }
{
    let (family, rest) = family_name_at(alloc, bytes)?;
    let (qualifier, rest) = qualifier_at(alloc, rest)?;
    let (at, rest) = match micros_at(rest) {
        Ok(read) => read,
        Err(fault) => return Err(fault),
    };
    let (value, rest) = value_at(alloc, rest)?;
    let mutation = Mutation::SetCell {
        family,
        qualifier,
        at,
        value,
    };
    Ok((mutation, rest))
}

#[tactic(auto, unfolding(crate::specs::Reading::delete_column_at))]
fn delete_column_at(alloc: Global, bytes: &[u8]) -> Result<(Mutation, &[u8]), Fault>
    ensures { Gives (λ x. (x.0, x.1.now)) result (delete_column_at bytes.now) }
{
    let (family, rest) = family_name_at(alloc, bytes)?;
    let (qualifier, rest) = qualifier_at(alloc, rest)?;
    let (start, rest) = time_at(rest)?;
    let (end, rest) = time_at(rest)?;
    let mutation = Mutation::DeleteColumn {
        family,
        qualifier,
        start,
        end,
    };
    Ok((mutation, rest))
}

#[tactic(auto, unfolding(crate::specs::Reading::delete_family_at))]
fn delete_family_at(alloc: Global, bytes: &[u8]) -> Result<(Mutation, &[u8]), Fault>
    ensures { Gives (λ x. (x.0, x.1.now)) result (delete_family_at bytes.now) }
{
    let (family, rest) = family_name_at(alloc, bytes)?;
    Ok((Mutation::DeleteFamily { family }, rest))
}
