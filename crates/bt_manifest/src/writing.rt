//! The one spelling of a snapshot.
ghost use Rattle.std.specs.Prelude.{◌≡◌, ◌++◌, ◌<◌, ◌^◌, length, OnOk};
ghost use Rattle.std.specs.Int.{w32};
ghost use Rattle.bt_codec.specs.Spelling.{list, text};
ghost use Rattle.bt_manifest.specs.Grammar.{AreFiles, AreSegments, AreTables, IsSnapshot};
ghost use Rattle.bt_manifest.specs.Spelling.{number, segment, snapshot_bytes, table};

use crate::{FileNumbers, Segment, SegmentList, Snapshot, TableFileList, TableFiles};
use bt_base::Blob;
use bt_codec::{put_text32, put_u32, put_u64};
use std::alloc::AllocError;

#[tactic(auto, unfolding(crate::specs::Spelling::snapshot_bytes))]
pub(crate) fn put_snapshot(out: &mut Vec<u8>, snapshot: &Snapshot) -> Result<(), AllocError>
    requires { IsSnapshot snapshot.now }
    ensures { OnOk result (out.new.items ≡ out.old.items ++ snapshot_bytes snapshot.now) }
{
    put_u64(out, snapshot.next_file)?;
    put_u64(out, snapshot.floor)?;
    put_u64(out, snapshot.base)?;
    put_segments(out, &snapshot.segments)?;
    put_tables(out, &snapshot.tables)?;
    put_text(out, &snapshot.schema)?;
    Ok(())
}

fn put_segments(out: &mut Vec<u8>, segments: &SegmentList) -> Result<(), AllocError>
    requires { length segments.now < 2 ^ 32 }
    ensures { OnOk result (out.new.items ≡ out.old.items ++ list w32 segment segments.now) }
{
    let segments = segments.items();
    put_u32(out, segments.len() as u32)?;
    for segment in segments {
        put_segment(out, segment)?;
    }
    Ok(())
}

fn put_segment(out: &mut Vec<u8>, s: &Segment) -> Result<(), AllocError>
    ensures { OnOk result (out.new.items ≡ out.old.items ++ segment s.now) }
{
    put_u64(out, s.file)?;
    put_u64(out, s.first)
}

fn put_tables(out: &mut Vec<u8>, tables: &TableFileList) -> Result<(), AllocError>
    requires { AreTables tables.now }
    ensures { OnOk result (out.new.items ≡ out.old.items ++ list w32 table tables.now) }
{
    let tables = tables.items();
    put_u32(out, tables.len() as u32)?;
    for table in tables {
        put_table(out, table)?;
    }
    Ok(())
}

fn put_table(out: &mut Vec<u8>, t: &TableFiles) -> Result<(), AllocError>
    requires { length t.now.files < 2 ^ 32 }
    ensures { OnOk result (out.new.items ≡ out.old.items ++ table t.now) }
{
    put_u64(out, t.incarnation)?;
    put_u64(out, t.lost)?;
    put_files(out, &t.files)
}

fn put_files(out: &mut Vec<u8>, files: &FileNumbers) -> Result<(), AllocError>
    requires { length files.now < 2 ^ 32 }
    ensures { OnOk result (out.new.items ≡ out.old.items ++ list w32 number files.now) }
{
    let files = files.items();
    put_u32(out, files.len() as u32)?;
    for file in files {
        put_u64(out, *file)?;
    }
    Ok(())
}

fn put_text(out: &mut Vec<u8>, value: &Blob) -> Result<(), AllocError>
    requires { length value.now < 2 ^ 32 }
    ensures { OnOk result (out.new.items ≡ out.old.items ++ text w32 value.now) }
{
    put_text32(out, value.bytes())
}
