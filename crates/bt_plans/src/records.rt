//! Records of entries, and the plans that they make.
ghost use Rattle.std.specs.Prelude.{◌≡◌, ◌+◌, ◌++◌, ◌∷◌, ◌≤◌, [], IfOk, OnOk, length};
ghost use Rattle.bt_plans.specs.Records.{as_record, plan_of};
ghost use Rattle.bt_plans.specs.Replies.{event};
ghost use Rattle.bt_state.specs.State.{greatest_sequence, numbered};

use crate::answer::Answer;
use crate::plan::{Plan, RecordList};
use bt_base::OutOfMemory;
use bt_entry::{Batch, Entry, Numbered};
use std::alloc::Global;

/// Puts an entry at the end of a batch, the first entry of which has that sequence.
pub fn put_entry(
    batch: &mut Batch,
    first: u64,
    moment: u64,
    entry: Entry,
) -> Result<(), OutOfMemory>
    requires { first ≤ greatest_sequence + 1 }
    ensures { OnOk result (batch.new ≡ batch.old ++ numbered (first + length batch.old) (event moment entry) ∷ []) }
{
    let sequence = first + batch.items().len() as u64;
    batch.push(Numbered {
        sequence,
        moment,
        entry,
    })
}

/// One record of these entries, or none where there are none.
pub fn as_record(alloc: Global, batch: Batch) -> Result<RecordList, OutOfMemory>
    ensures { IfOk result (λ records. records ≡ as_record batch) }
{
    let mut records = RecordList::new(alloc);
    if batch.is_empty() {
        return Ok(records);
    }
    records.push(batch)?;
    Ok(records)
}

/// The plan of these records, or of no change where there are none.
pub fn plan_of(records: RecordList, answer: Answer) -> Plan
    ensures { result ≡ plan_of records answer }
{
    if records.is_empty() {
        return Plan::Says(answer);
    }
    Plan::Changes { records, answer }
}
