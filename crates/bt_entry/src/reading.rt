//! The batch that bytes spell.
ghost use Rattle.std.specs.Prelude.{◌≡◌, ◌≤◌, List, IfOk, Ok};
ghost use Rattle.bt_entry.specs.declared.numbered.Numbered.{Numbered};
ghost use Rattle.bt_entry.specs.Grammar.{AreNumbered, IsSpellable};
ghost use Rattle.bt_entry.specs.Spelling.{spelling};
ghost use Rattle.bt_codec.specs.Reading.{Gives};
ghost use Rattle.bt_entry.specs.Reading.{Answers, batch_at, batch_in, entries_at, numbered_at};

use crate::entries::entry_at;
use crate::fields::moment_at;
use crate::{Batch, BatchRefusal, Numbered};
use bt_codec::{Fault, count_at};
use std::alloc::Global;

/// The batch that the bytes spell, with entries numbered on from `first`.
///
/// Nothing is read that the format does not have: nothing may stand behind the last entry. The
/// field at which reading stops is a number, a tag, a count, a length, or the bytes of a text: a
/// length that its text cannot have stops it at the length, and a text that is no lawful name at
/// its bytes. A rule of more than 8 levels stops it at the tag of the node on the ninth, and one of
/// more than 32 nodes at the count that announces the 33rd.
pub fn read_batch(alloc: Global, bytes: &[u8], first: u64) -> Result<Batch, BatchRefusal>
    requires { first ≤ 9223372036854775807 }
    // What is read is spelled so.
    ensures found { IfOk result (λ b. IsSpellable b × AreNumbered first b × (bytes.now ≡ spelling b)) }
    // What is spelled so is read, unless memory runs out.
    ensures only { (batch : List Numbered) → IsSpellable batch → AreNumbered first batch → bytes.now ≡ spelling batch → Answers result (Ok batch) }
    // Where the first bad field begins.
    ensures exact { Answers result (batch_in first bytes.now) }
{
    match batch_at(alloc, bytes, first) {
        Ok(batch) => Ok(batch),
        Err(Fault::Bad { left }) => Err(BatchRefusal::BadEntry {
            at: (bytes.len() - left) as u64,
        }),
        Err(Fault::OutOfMemory) => Err(BatchRefusal::OutOfMemory),
    }
}

#[tactic(auto, unfolding(crate::specs::Reading::batch_at, bt_codec::specs::Reading::counted_at))]
fn batch_at(alloc: Global, bytes: &[u8], first: u64) -> Result<Batch, Fault>
    requires { first ≤ 9223372036854775807 }
    ensures { Gives (λ b. b) result (batch_at first bytes.now) }
{
    let (count, rest) = count_at(bytes)?;
    let (batch, rest) = entries_at(alloc, first, count, rest)?;
    if !rest.is_empty() {
        return Err(Fault::Bad { left: rest.len() });
    }
    Ok(batch)
}

fn entries_at(alloc: Global, first: u64, count: u32, bytes: &[u8]) -> Result<(Batch, &[u8]), Fault>
    requires { first ≤ 9223372036854775807 }
    ensures { Gives (λ x. (x.0, x.1.now)) result (entries_at first count bytes.now) }
{
    let mut batch = Batch::new(alloc);
    let mut rest = bytes;
    for i in 0..count {
        let sequence = first + u64::from(i);
        let (numbered, after) = numbered_at(alloc, sequence, rest)?;
        batch.push(numbered)?;
        rest = after;
    }
    Ok((batch, rest))
}

#[tactic(auto, unfolding(crate::specs::Reading::numbered_at))]
fn numbered_at(alloc: Global, sequence: u64, bytes: &[u8]) -> Result<(Numbered, &[u8]), Fault>
    ensures { Gives (λ x. (x.0, x.1.now)) result (numbered_at sequence bytes.now) }
{
    let (moment, rest) = moment_at(bytes)?;
    let (entry, rest) = entry_at(alloc, rest)?;
    let numbered = Numbered {
        sequence,
        moment,
        entry,
    };
    Ok((numbered, rest))
}
