//! The records of a segment, read from the left.
ghost use Rattle.std.specs.Prelude.{◌≡◌, ◌+◌, ◌<◌, ◌≤◌, suc, length, IfOk, IfSome, IfErr};
ghost use Rattle.std.specs.List.{AllByRecursion};
ghost use Rattle.bt_outside.specs.Disk.{max_length};
ghost use Rattle.bt_entry.specs.Grammar.{IsSpellableNumbered, AreNumbered};
ghost use Rattle.bt_log.specs.Segment.{record_at, records_at};
ghost use Rattle.bt_log.specs.Reads.{Gives, option_map, IsWithin};

use crate::body::body_in;
use crate::fault::Fault;
use bt_entry::{Batch, BatchRefusal, read_batch};
use std::alloc::Global;

const OPENED: u8 = 1;

// The batch of the record at the front and the bytes behind it, or nothing at a closed gate.
fn next_record(alloc: Global, bytes: &[u8], first: u64) -> Result<Option<(Batch, &[u8])>, Fault>
    requires { first ≤ 9223372036854775807 }
    ensures exact { Gives (λ o. option_map (λ x. (x.0, x.1.now)) o) result (record_at first bytes.now) }
    ensures numbered { IfOk result (λ o. IfSome o (λ x. AreNumbered first x.0)) }
    ensures spellable { IfOk result (λ o. IfSome o (λ x. AllByRecursion IsSpellableNumbered x.0)) }
    // An entry takes a byte, and so does a gate.
    ensures shorter { IfOk result (λ o. IfSome o (λ x. length x.0 + length x.1.now < length bytes.now)) }
{
    let [gate, behind @ ..] = bytes else {
        return Err(Fault::Bad { left: 0 });
    };
    if *gate != OPENED {
        return Ok(None);
    }
    let Some((body, rest)) = body_in(behind) else {
        return Err(Fault::Bad { left: bytes.len() });
    };
    match read_batch(alloc, body, first) {
        Ok(batch) => Ok(Some((batch, rest))),
        Err(BatchRefusal::BadEntry { .. }) => Err(Fault::Bad { left: bytes.len() }),
        Err(BatchRefusal::OutOfMemory) => Err(Fault::OutOfMemory),
    }
}

/// The entries up to the first closed gate, and how many bytes are left there.
pub(crate) fn records_in(alloc: Global, bytes: &[u8], first: u64) -> Result<(Batch, usize), Fault>
    requires first { first ≤ 4611686018427387904 }
    requires limit { length bytes.now ≤ max_length }
    ensures exact { Gives (λ x. x) result (records_at (suc (length bytes.now)) first bytes.now) }
    ensures numbered { IfOk result (λ x. AreNumbered first x.0) }
    ensures spellable { IfOk result (λ x. AllByRecursion IsSpellableNumbered x.0) }
    ensures few { IfOk result (λ x. length x.0 ≤ length bytes.now) }
    ensures within { IfOk result (λ x. x.1 ≤ length bytes.now) }
    ensures fault_within { IfErr result (IsWithin (length bytes.now)) }
{
    let mut entries = Batch::new(alloc);
    let mut rest = bytes;
    while let Some((batch, after)) = next_record(
        alloc,
        rest,
        first + entries.items().len() as u64,
    )? {
        entries.append(batch)?;
        rest = after;
    }
    Ok((entries, rest.len()))
}
