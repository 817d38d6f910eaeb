//! UpdateTable.
ghost use Rattle.std.specs.Prelude.{◌≡◌, ◌≤◌, IfOk};
ghost use Rattle.bt_entry.specs.Grammar.{last_moment};
ghost use Rattle.bt_plans.specs.Plans.{IsPlan};
ghost use Rattle.bt_schema.specs.Schema.{table_of};
ghost use Rattle.bt_table_replies.specs.Tables.{is_stream_mask, update_reply};

use crate::retention::lawful_retention;
use bt_base::{OutOfMemory, Plain};
use bt_entry::Entry;
use bt_messages::{Refusal, table_lines};
use bt_plans::{Answer, Plan, next_sequence};
use bt_schema::set_retention;
use bt_state::Present;
use bt_types::{TableName, Text};
use std::alloc::Global;

/// The change stream of the table of that name begins, ends, or keeps changes for another time
/// (`google.bigtable.admin.v2.UpdateTableRequest`). The mask has to name the stream.
pub fn update_table(
    alloc: Global,
    present: &Present,
    name: &TableName,
    mask: &Text,
    retention: Option<i64>,
    moment: u64,
) -> Result<Plan, OutOfMemory>
    requires not_before { present.now.floor ≤ moment }
    requires not_past { moment ≤ last_moment }
    ensures { IfOk result (λ plan. IsPlan plan present.now (update_reply present.now moment mask.now retention (table_of name.now present.now.schema))) }
{
    let Some(table) = present.table(name) else {
        return Ok(Plan::refuses(Refusal::TableNotFound));
    };
    if !is_stream_mask(mask.text()) {
        return Ok(Plan::refuses(Refusal::BadUpdateMask));
    }
    let retention = match lawful_retention(retention) {
        Ok(retention) => retention,
        Err(refusal) => return Ok(Plan::refuses(refusal)),
    };
    let mut table = table.copy(alloc)?;
    set_retention(&mut table, next_sequence(present), moment, retention);
    let lines = table_lines(alloc, &table)?;
    let incarnation = table.incarnation;
    let entry = Entry::Stream {
        incarnation,
        retention,
    };
    Plan::changes(alloc, present, moment, entry, Answer::Lines(lines))
}

fn is_stream_mask(mask: &str) -> bool
    ensures { result ≡ is_stream_mask mask.now }
{
    matches!(
        mask,
        "changeStreamConfig"
            | "change_stream_config"
            | "changeStreamConfig.retentionPeriod"
            | "changeStreamConfig.retention_period"
            | "change_stream_config.retentionPeriod"
            | "change_stream_config.retention_period"
    )
}
