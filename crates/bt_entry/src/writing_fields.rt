//! The fields of a batch, written at the end of the bytes.
ghost use Rattle.std.specs.Prelude.{◌≡◌, ◌++◌, ◌≤◌, length, IsTrue, OnOk};
ghost use Rattle.bt_types.specs.Grammar.{is_family_name, is_qualifier, is_row_key, is_table_name};
ghost use Rattle.bt_types.specs.Time.{is_micros};
ghost use Rattle.std.specs.Int.{w8, w16, w32, w64, to_be_bytes};
ghost use Rattle.bt_entry.specs.Grammar.{most_of_value};
ghost use Rattle.bt_codec.specs.Spelling.{text};

use bt_base::Blob;
use bt_codec::{put_text8, put_text16, put_text32, put_u64};
use bt_types::{FamilyName, Micros, Qualifier, RowKey, TableName};
use std::alloc::AllocError;

pub(crate) fn put_family_name(out: &mut Vec<u8>, name: &FamilyName) -> Result<(), AllocError>
    ensures spelled { OnOk result (out.new.items ≡ out.old.items ++ text w8 name.now) }
    ensures lawful { IsTrue (is_family_name name.now) }
{
    put_text8(out, name.bytes())
}

/// A length, and the bytes of the name.
pub fn put_table_name(out: &mut Vec<u8>, name: &TableName) -> Result<(), AllocError>
    ensures spelled { OnOk result (out.new.items ≡ out.old.items ++ text w16 name.now) }
    ensures lawful { IsTrue (is_table_name name.now) }
{
    put_text16(out, name.bytes())
}

pub(crate) fn put_key(out: &mut Vec<u8>, key: &RowKey) -> Result<(), AllocError>
    ensures spelled { OnOk result (out.new.items ≡ out.old.items ++ text w16 key.now) }
    ensures lawful { IsTrue (is_row_key key.now) }
{
    put_text16(out, key.bytes())
}

pub(crate) fn put_qualifier(out: &mut Vec<u8>, qualifier: &Qualifier) -> Result<(), AllocError>
    ensures spelled { OnOk result (out.new.items ≡ out.old.items ++ text w16 qualifier.now) }
    ensures lawful { IsTrue (is_qualifier qualifier.now) }
{
    put_text16(out, qualifier.bytes())
}

pub(crate) fn put_micros(out: &mut Vec<u8>, at: Micros) -> Result<(), AllocError>
    ensures spelled { OnOk result (out.new.items ≡ out.old.items ++ to_be_bytes w64 at) }
    ensures lawful { IsTrue (is_micros at) }
{
    put_u64(out, at.number() as u64)
}

pub(crate) fn put_value(out: &mut Vec<u8>, value: &Blob) -> Result<(), AllocError>
    requires { length value.now ≤ most_of_value }
    ensures { OnOk result (out.new.items ≡ out.old.items ++ text w32 value.now) }
{
    put_text32(out, value.bytes())
}
