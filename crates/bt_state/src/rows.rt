//! What an entry changes in the rows of all tables.
ghost use Rattle.std.specs.Prelude.{◌≡◌, OnOk, OnErr};
ghost use Rattle.bt_entry.specs.Grammar.{IsSpellableEntry};
ghost use Rattle.bt_state.specs.State.{IsOfRow, contents_after};

use bt_all_contents::{AllContents, RowChange};
use bt_base::OutOfMemory;
use bt_entry::Entry;
use std::alloc::Global;

// Only the change of a row takes memory.
pub(crate) fn change_rows(
    alloc: Global,
    contents: &mut AllContents,
    entry: Entry,
) -> Result<(), OutOfMemory>
    requires { IsSpellableEntry entry }
    ensures ok { OnOk result (contents.new ≡ contents_after entry contents.old) }
    ensures err { OnErr result (contents.new ≡ contents.old) }
    ensures row { OnErr result (IsOfRow entry) }
{
    match entry {
        Entry::Row {
            incarnation,
            key,
            mutations,
            ..
        } => {
            let change = RowChange {
                incarnation,
                key,
                mutations,
            };
            contents.change(alloc, change)
        }
        Entry::Create { .. } => Ok(()),
        Entry::Delete { incarnation } => {
            contents.forget(incarnation);
            Ok(())
        }
        Entry::Alter { .. } => Ok(()),
        Entry::Stream { .. } => Ok(()),
        Entry::Floor => Ok(()),
    }
}
