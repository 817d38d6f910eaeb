//! What is to be done for a line.
ghost use Rattle.std.specs.Prelude.{◌≡◌, ◌+◌, ◌++◌, ◌∷◌, ◌≤◌, [], IfOk};
ghost use Rattle.bt_messages.specs.Lines.{line_of, ok_line, response_data};
ghost use Rattle.bt_messages.specs.Responses.{shown};
ghost use Rattle.bt_messages.specs.declared.response.Response.{Response};
ghost use Rattle.bt_plans.specs.Plans.{IsPlan, answer_bytes};
ghost use Rattle.bt_plans.specs.Replies.{changes, event};
ghost use Rattle.bt_plans.specs.declared.answer.Answer.TheVariants as answer;
ghost use Rattle.bt_plans.specs.declared.plan.Plan.TheVariants as plan;
ghost use Rattle.bt_state.specs.State.{IsLawful, greatest_sequence, numbered};

use crate::answer::Answer;
use crate::read_plan::ReadPlan;
use crate::records::put_entry;
use bt_base::{ListOf, OutOfMemory};
use bt_entry::{Batch, Entry, TableInfo};
use bt_messages::Refusal;
use bt_state::Present;
use std::alloc::Global;

/// What is to be done for a line. All memory for it is taken, but for the rows of a read.
#[derive(Drop)]
pub enum Plan {
    /// It is answered so, and nothing changes.
    Says(Answer),
    /// The records are committed, one after another, and then the line is answered so.
    Changes { records: RecordList, answer: Answer },
    /// It is answered by the rows that are read, and nothing changes.
    Reads(ReadPlan),
}

/// Records of the log: each is there whole or not at all.
pub type RecordList = ListOf<Batch>;

impl Plan {
    /// The refusal is answered, and nothing changes.
    pub fn refuses(refusal: Refusal) -> Plan
        ensures { result ≡ plan.Says (answer.Refused refusal) }
    {
        Plan::Says(Answer::Refused(refusal))
    }

    /// The change of one entry, which is a record by itself.
    pub fn changes(
        alloc: Global,
        present: &Present,
        moment: u64,
        entry: Entry,
        answer: Answer,
    ) -> Result<Plan, OutOfMemory>
        requires { IsLawful present.now (event moment entry) }
        ensures whole { IfOk result (λ p. p ≡ plan.Changes ((numbered (present.now.last + 1) (event moment entry) ∷ []) ∷ []) answer) }
        ensures reply { (response : Response) → answer_bytes answer ≡ line_of (response_data (shown response)) ++ ok_line → IfOk result (λ plan. IsPlan plan present.now (changes response moment entry)) }
    {
        let mut batch = Batch::new(alloc);
        put_entry(&mut batch, next_sequence(present), moment, entry)?;
        let mut records = RecordList::new(alloc);
        records.push(batch)?;
        Ok(Plan::Changes { records, answer })
    }
}

/// The sequence of the next entry, if there is one.
pub fn next_sequence(present: &Present) -> u64
    ensures value { result ≡ present.now.last + 1 }
    ensures small { present.now.last ≤ greatest_sequence }
{
    present.last_sequence() + 1
}

/// The incarnation of a table, by which an entry means it.
pub fn incarnation_of(table: &TableInfo) -> u64
    ensures { result ≡ table.now.incarnation }
{
    table.incarnation
}
