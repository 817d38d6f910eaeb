//! The families of a table, read from the left.
ghost use Rattle.std.specs.Prelude.{◌≡◌, nat_le};
ghost use Rattle.std.specs.Int.{w16};
ghost use Rattle.bt_entry.specs.Grammar.{most_families, last_name};
ghost use Rattle.bt_codec.specs.Reading.{Gives, number_with};
ghost use Rattle.bt_entry.specs.Reading.{families_at, family_at, family_list_at};

use crate::names::next_family_name_at;
use crate::rules::rule_or_none_at;
use bt_codec::{Fault, u16_at};
use bt_rules::{Families, Family};
use std::alloc::Global;

const MOST_FAMILIES: u16 = 100;

/// The families of a table: a count, and so many families.
#[tactic(auto, unfolding(bt_codec::specs::Reading::counted_at))]
pub fn family_list_at(alloc: Global, bytes: &[u8]) -> Result<(Families, &[u8]), Fault>
    ensures { Gives (λ x. (x.0, x.1.now)) result (family_list_at bytes.now) }
{
    let (count, rest) = family_count_at(bytes)?;
    families_at(alloc, count, rest)
}

#[tactic(auto, unfolding(bt_codec::specs::Reading::number_with))]
fn family_count_at(bytes: &[u8]) -> Result<(u16, &[u8]), Fault>
    ensures { Gives (λ x. (x.0, x.1.now)) result (number_with w16 (λ n. nat_le n most_families) bytes.now) }
{
    let (count, rest) = u16_at(bytes)?;
    if count > MOST_FAMILIES {
        return Err(Fault::Bad { left: bytes.len() });
    }
    Ok((count, rest))
}

fn families_at(alloc: Global, count: u16, bytes: &[u8]) -> Result<(Families, &[u8]), Fault>
    ensures { Gives (λ x. (x.0, x.1.now)) result (families_at count bytes.now) }
{
    let mut families = Families::new(alloc);
    let mut rest = bytes;
    for _ in 0..count {
        let (family, after) = family_at(alloc, last_name(&families), rest)?;
        families.push(family)?;
        rest = after;
    }
    Ok((families, rest))
}

// The name of the last family, or no bytes, which come before every name.
fn last_name(families: &Families) -> &[u8]
    ensures { result.now ≡ last_name families.now }
{
    match families.items() {
        [.., last] => last.name.bytes(),
        [] => &[],
    }
}

#[tactic(auto, unfolding(crate::specs::Reading::family_at))]
fn family_at<'a>(alloc: Global, before: &[u8], bytes: &'a [u8]) -> Result<(Family, &'a [u8]), Fault>
    ensures { Gives (λ x. (x.0, x.1.now)) result (family_at before.now bytes.now) }
{
    let (name, rest) = next_family_name_at(alloc, before, bytes)?;
    let (rule, rest) = rule_or_none_at(alloc, rest)?;
    Ok((Family { name, rule }, rest))
}
