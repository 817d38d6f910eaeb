//! The families of a table by their names.
ghost use Rattle.std.specs.Prelude.{◌≡◌};
ghost use Rattle.bt_schema.specs.Schema as spec;

use bt_entry::TableInfo;
use bt_rules::Family;
use bt_types::FamilyName;

/// Whether the table has that family.
pub fn has_family(table: &TableInfo, family: &FamilyName) -> bool
    ensures { result ≡ spec.has_family table.now family.now }
{
    is_family_of(table.families.items(), family.bytes())
}

/// Whether one of the families has these bytes as its name.
pub fn is_family_of(families: &[Family], name: &[u8]) -> bool
    ensures { result ≡ spec.is_family_of families.now name.now }
{
    families.iter().any(|family| family.name.bytes() == name)
}
