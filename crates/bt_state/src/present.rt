//! The tables as they are, and the numbers that the next entry depends on.
ghost use Rattle.std.specs.Prelude.{◌≡◌, ◌↔◌, ◌+◌, ◌<◌, ◌≤◌, [], Some, length, IfSome, IsTrue, OnOk, OnErr, option_map, unwrap_or};
ghost use Rattle.bt_entry.specs.Grammar.{AreNumbered, AreSpellableFamilies};
ghost use Rattle.bt_schema.specs.Schema.{table_at, table_of};
ghost use Rattle.bt_state.specs.State.{AreLawful, AreOrdered, AreRowKeys, IsLawful, events_of, greatest_sequence, moment_used, nothing, present_after, presents_after, rows_of};

use crate::batches::{
    changed_schema, deleted_tables, floor_after, forget_all, put_schema, row_changes,
};
use crate::rows::change_rows;
use bt_all_contents::AllContents;
use bt_base::OutOfMemory;
use bt_contents::Contents;
use bt_entry::{Batch, Entry, Numbered, TableInfo};
use bt_schema::Schema;
use bt_types::TableName;
use std::alloc::Global;
use std::marker::Model;

const GREATEST_SEQUENCE: u64 = 4611686018427387904;

const GREATEST_MOMENT: u64 = 253402300799999999;

/// The tables with their rows, the sequence of the last entry of the history, and the greatest
/// moment of one, in microseconds since 1970. It is what a list of entries leads to.
#[derive(Drop)]
pub struct Present {
    schema: Schema,
    contents: AllContents,
    last: u64,
    floor: u64,
}

impl Model for Present {
    ghost use Rattle.std.specs.Prelude.{◌≤◌};
    ghost use Rattle.bt_rules.specs.contracts.rule.Rule as rule;
    ghost use Rattle.bt_state.specs.State as states;
    ghost use Rattle.std.specs.Coded.{codes};

    ghost Value = { states.Present };

    ghost coded = { Prim.hlevel (codes, rule.the_row.coded) };

    ghost view = { λ p. record { schema = p.schema; contents = p.contents; last = p.last; floor = p.floor } };

    ghost invariant = { λ p. states.IsReached (record { schema = p.schema; contents = p.contents; last = p.last; floor = p.floor }) };
}

impl Present {
    /// Before the first entry. It takes no memory yet.
    pub fn new(alloc: Global) -> Present
        ensures { result ≡ nothing }
    {
        Present {
            schema: Schema::new(alloc),
            contents: AllContents::new(alloc),
            last: 0,
            floor: 0,
        }
    }

    /// Before the first entry, where no moment may be below the floor. It takes no memory yet.
    pub fn with_floor(alloc: Global, floor: u64) -> Present
        ensures { result ≡ (record nothing { floor = floor }) }
    {
        Present {
            schema: Schema::new(alloc),
            contents: AllContents::new(alloc),
            last: 0,
            floor,
        }
    }

    pub fn schema(&self) -> &Schema
        ensures { result.now ≡ self.now.schema }
    {
        &self.schema
    }

    /// The table of that name. No other has its incarnation, and its families may stand in an entry.
    pub fn table(&self, name: &TableName) -> Option<&TableInfo>
        ensures table { option_map (λ t. t.now) result ≡ table_of name.now self.now.schema }
        ensures own { IfSome result (λ t. table_at t.now.incarnation self.now.schema ≡ Some t.now) }
        ensures lawful { IfSome result (λ t. AreSpellableFamilies t.now.families) }
    {
        self.schema.table(name)
    }

    /// The rows of the table of that incarnation; `None` where it has none or is gone. The rows of no
    /// table stand twice.
    pub fn rows_of(&self, incarnation: u64) -> Option<&Contents>
        ensures rows { unwrap_or (option_map (λ c. c.now) result) [] ≡ rows_of incarnation self.now.contents }
        ensures ordered { AreOrdered self.now.contents }
        ensures keyed { AreRowKeys (rows_of incarnation self.now.contents) }
    {
        self.contents.rows_of(incarnation)
    }

    /// The sequence of the last entry, or 0.
    pub fn last_sequence(&self) -> u64
        ensures value { result ≡ self.now.last }
        ensures small { self.now.last ≤ greatest_sequence }
    {
        self.last
    }

    /// The greatest moment of an entry, or 0.
    pub fn floor(&self) -> u64
        ensures { result ≡ self.now.floor }
    {
        self.floor
    }

    /// Whether so many further entries have sequences.
    pub fn has_room(&self, entries: usize) -> bool
        ensures { IsTrue result ↔ (self.now.last + entries ≤ greatest_sequence) }
    {
        self.last <= GREATEST_SEQUENCE && entries as u64 <= GREATEST_SEQUENCE - self.last
    }

    /// The moment to use for a reading of the clock, in microseconds since 1970: moments never
    /// fall, and none is past the year 9999.
    pub fn moment_used(&self, reading: u64) -> u64
        ensures { result ≡ moment_used self.now.floor reading }
    {
        self.floor.max(reading.min(GREATEST_MOMENT))
    }

    /// Makes the change of an entry that may come next. It takes the next sequence.
    pub fn apply(&mut self, alloc: Global, entry: Entry, moment: u64) -> Result<(), OutOfMemory>
        requires room { self.old.last < greatest_sequence }
        requires lawful { IsLawful self.old (record { moment = moment; entry = entry }) }
        ensures ok { OnOk result (self.new ≡ present_after self.old (record { moment = moment; entry = entry })) }
        ensures err { OnErr result (self.new ≡ self.old) }
    {
        let sequence = self.last + 1;
        let change = Numbered {
            sequence,
            moment,
            entry,
        };
        self.schema.apply_change(alloc, &change)?;
        change_rows(alloc, &mut self.contents, change.entry)?;
        self.last = sequence;
        self.floor = moment;
        Ok(())
    }

    /// Makes the changes of entries that may come next, in order, all or none. They take the next
    /// sequences. It fails only where an allocation is refused.
    pub fn apply_all(&mut self, alloc: Global, batch: Batch) -> Result<(), OutOfMemory>
        requires numbered { AreNumbered (self.old.last + 1) batch }
        requires room { self.old.last + length batch ≤ greatest_sequence }
        requires lawful { AreLawful self.old (events_of batch) }
        ensures ok { OnOk result (self.new ≡ presents_after self.old (events_of batch)) }
        ensures err { OnErr result (self.new ≡ self.old) }
    {
        if batch.items().len() == 1 {
            self.apply_only(alloc, batch)
        } else {
            self.apply_each(alloc, batch)
        }
    }

    // Without a copy of the tables.
    fn apply_only(&mut self, alloc: Global, batch: Batch) -> Result<(), OutOfMemory>
        requires only { length batch ≡ 1 }
        requires room { self.old.last + length batch ≤ greatest_sequence }
        requires lawful { AreLawful self.old (events_of batch) }
        ensures ok { OnOk result (self.new ≡ presents_after self.old (events_of batch)) }
        ensures err { OnErr result (self.new ≡ self.old) }
    {
        let mut entries = batch.into_vec();
        let Some(only) = entries.pop() else {
            unreachable!()
        };
        self.apply(alloc, only.entry, only.moment)
    }

    // What may fail comes before the first change, and the change of rows is all or none.
    fn apply_each(&mut self, alloc: Global, batch: Batch) -> Result<(), OutOfMemory>
        requires numbered { AreNumbered (self.old.last + 1) batch }
        requires room { self.old.last + length batch ≤ greatest_sequence }
        requires lawful { AreLawful self.old (events_of batch) }
        ensures ok { OnOk result (self.new ≡ presents_after self.old (events_of batch)) }
        ensures err { OnErr result (self.new ≡ self.old) }
    {
        let last = self.last + batch.items().len() as u64;
        let floor = floor_after(self.floor, batch.items());
        let schema = changed_schema(alloc, &self.schema, batch.items())?;
        let deleted = deleted_tables(alloc, batch.items())?;
        let changes = row_changes(alloc, batch)?;
        self.contents.change_all(alloc, changes)?;
        forget_all(&mut self.contents, deleted);
        put_schema(&mut self.schema, schema);
        self.last = last;
        self.floor = floor;
        Ok(())
    }
}
