//! Which entries may come next.
ghost use Rattle.std.specs.Prelude.{◌≡◌};
ghost use Rattle.bt_schema.specs.Schema.{table_at};
ghost use Rattle.bt_state.specs.State.{families_of, is_allowed, keep_used, keeps_rows, rows_of};

use crate::Present;
use bt_contents::Contents;
use bt_entry::Entry;
use bt_rules::Family;
use bt_schema::is_family_of;

impl Present {
    /// Whether the entry may come next, as far as the tables and their rows tell: as
    /// `Schema::check_change` has it, and a table with these families from now on
    /// (`google.bigtable.admin.v2.ModifyColumnFamiliesRequest`) keeps each family that has a cell.
    pub fn allows(&self, entry: &Entry) -> bool
        ensures { result ≡ is_allowed entry.now self.now }
    {
        self.schema().check_change(entry).is_ok() && self.keeps_rows(entry)
    }

    fn keeps_rows(&self, entry: &Entry) -> bool
        ensures { result ≡ keeps_rows entry.now self.now }
    {
        match entry {
            Entry::Row { .. } => true,
            Entry::Create { .. } => true,
            Entry::Delete { .. } => true,
            Entry::Alter {
                incarnation,
                families,
            } => self.keeps_used(*incarnation, families.items()),
            Entry::Stream { .. } => true,
            Entry::Floor => true,
        }
    }

    fn keeps_used(&self, incarnation: u64, kept: &[Family]) -> bool
        ensures { result ≡ keep_used kept.now (families_of (table_at incarnation self.now.schema)) (rows_of incarnation self.now.contents) }
    {
        let Some(table) = self.schema().table_at(incarnation) else {
            return true;
        };
        let Some(rows) = self.rows_of(incarnation) else {
            return true;
        };
        keep_used(kept, table.families.items(), rows)
    }
}

fn keep_used(kept: &[Family], families: &[Family], rows: &Contents) -> bool
    ensures { result ≡ keep_used kept.now families.now rows.now }
{
    families.iter().all(|family| {
        is_family_of(kept, family.name.bytes()) || !rows.has_family(&family.name)
    })
}
