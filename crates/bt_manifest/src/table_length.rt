//! How long the tables of a snapshot are.
ghost use Rattle.std.specs.Prelude.{◌≡◌, length, min};
ghost use Rattle.std.specs.List.{flat_map};
ghost use Rattle.bt_base.specs.Counts.{most};
ghost use Rattle.bt_manifest.specs.Spelling.{table};

use crate::TableFiles;

// Two numbers and a count.
const FIXED: u64 = 20;

const OF_FILE: u64 = 8;

pub(crate) fn tables_length(tables: &[TableFiles]) -> u64
    ensures { result ≡ min (length (flat_map table tables.now)) most }
{
    let mut length: u64 = 0;
    for table in tables {
        length = length.saturating_add(table_length(table));
    }
    length
}

fn table_length(t: &TableFiles) -> u64
    ensures { result ≡ min (length (table t.now)) most }
{
    (t.files.items().len() as u64)
        .saturating_mul(OF_FILE)
        .saturating_add(FIXED)
}
