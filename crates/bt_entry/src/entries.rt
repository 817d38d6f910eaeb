//! An entry, read from the left.
ghost use Rattle.bt_codec.specs.Reading.{Gives};
ghost use Rattle.bt_entry.specs.Reading.{alter_at, create_at, delete_at, entry_at, row_at, stream_at};

use crate::Entry;
use crate::families::family_list_at;
use crate::fields::{key_at, retention_at};
use crate::mutations::mutation_list_at;
use crate::names::table_name_at;
use bt_codec::{Fault, u8_at, u64_at};
use std::alloc::Global;

#[tactic(auto, unfolding(crate::specs::Reading::entry_at))]
pub(crate) fn entry_at(alloc: Global, bytes: &[u8]) -> Result<(Entry, &[u8]), Fault>
    ensures { Gives (λ x. (x.0, x.1.now)) result (entry_at bytes.now) }
{
    let (tag, rest) = u8_at(bytes)?;
    match tag {
        1 => row_at(alloc, false, rest),
        2 => row_at(alloc, true, rest),
        3 => create_at(alloc, rest),
        4 => delete_at(rest),
        5 => alter_at(alloc, rest),
        6 => stream_at(rest),
        7 => Ok((Entry::Floor, rest)),
        _ => Err(Fault::Bad { left: bytes.len() }),
    }
}

#[tactic(auto, unfolding(crate::specs::Reading::row_at))]
fn row_at(alloc: Global, by_rule: bool, bytes: &[u8]) -> Result<(Entry, &[u8]), Fault>
    ensures { Gives (λ x. (x.0, x.1.now)) result (row_at by_rule bytes.now) }
{
    let (incarnation, rest) = u64_at(bytes)?;
    let (key, rest) = key_at(alloc, rest)?;
    let (mutations, rest) = mutation_list_at(alloc, rest)?;
    let entry = Entry::Row {
        incarnation,
        key,
        by_rule,
        mutations,
    };
    Ok((entry, rest))
}

#[tactic(auto, unfolding(crate::specs::Reading::create_at))]
fn create_at(alloc: Global, bytes: &[u8]) -> Result<(Entry, &[u8]), Fault>
    ensures { Gives (λ x. (x.0, x.1.now)) result (create_at bytes.now) }
{
    let (name, rest) = table_name_at(alloc, bytes)?;
    let (families, rest) = family_list_at(alloc, rest)?;
    let (retention, rest) = retention_at(rest)?;
    let entry = Entry::Create {
        name,
        families,
        retention,
    };
    Ok((entry, rest))
}

#[tactic(auto, unfolding(crate::specs::Reading::delete_at))]
fn delete_at(bytes: &[u8]) -> Result<(Entry, &[u8]), Fault>
    ensures { Gives (λ x. (x.0, x.1.now)) result (delete_at bytes.now) }
{
    let (incarnation, rest) = u64_at(bytes)?;
    Ok((Entry::Delete { incarnation }, rest))
}

#[tactic(auto, unfolding(crate::specs::Reading::alter_at))]
fn alter_at(alloc: Global, bytes: &[u8]) -> Result<(Entry, &[u8]), Fault>
    ensures { Gives (λ x. (x.0, x.1.now)) result (alter_at bytes.now) }
{
    let (incarnation, rest) = u64_at(bytes)?;
    let (families, rest) = family_list_at(alloc, rest)?;
    let entry = Entry::Alter {
        incarnation,
        families,
    };
    Ok((entry, rest))
}

#[tactic(auto, unfolding(crate::specs::Reading::stream_at))]
fn stream_at(bytes: &[u8]) -> Result<(Entry, &[u8]), Fault>
    ensures { Gives (λ x. (x.0, x.1.now)) result (stream_at bytes.now) }
{
    let (incarnation, rest) = u64_at(bytes)?;
    let (retention, rest) = retention_at(rest)?;
    let entry = Entry::Stream {
        incarnation,
        retention,
    };
    Ok((entry, rest))
}
