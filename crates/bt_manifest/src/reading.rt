//! The snapshot that bytes spell.
ghost use Rattle.std.specs.Prelude.{◌≡◌, ◌≤◌, IfOk, Ok};
ghost use Rattle.bt_codec.specs.Reading.{Gives};
ghost use Rattle.bt_manifest.specs.declared.snapshot.Snapshot.{Snapshot};
ghost use Rattle.bt_manifest.specs.Grammar.{IsSnapshot, most_number};
ghost use Rattle.bt_manifest.specs.Spelling.{snapshot_bytes};
ghost use Rattle.bt_manifest.specs.Reading.{files_at, list_at, segment_at, segments_at, snapshot_in, table_at, tables_at};

use crate::fields::{moment_at, number_from};
use crate::{FileNumbers, Segment, SegmentList, Snapshot, TableFileList, TableFiles};
use bt_base::Blob;
use bt_codec::{Fault, text32_at, u32_at};
use std::alloc::Global;

/// The snapshot that all of the bytes spell.
pub(crate) fn read_snapshot(alloc: Global, bytes: &[u8]) -> Result<Snapshot, Fault>
    ensures read { Gives (λ s. s) result (snapshot_in bytes.now) }
    // What is read is spelled so.
    ensures found { IfOk result (λ s. IsSnapshot s × (bytes.now ≡ snapshot_bytes s)) }
    // What is spelled so is read, unless memory runs out.
    ensures only { (s : Snapshot) → IsSnapshot s → bytes.now ≡ snapshot_bytes s → Gives (λ x. x) result (Ok s) }
{
    match snapshot_in(alloc, bytes) {
        Ok(snapshot) => Ok(snapshot),
        Err(fault) => Err(fault),
    }
}

#[tactic(auto, unfolding(crate::specs::Reading::snapshot_in))]
fn snapshot_in(alloc: Global, bytes: &[u8]) -> Result<Snapshot, Fault>
    ensures { Gives (λ s. s) result (snapshot_in bytes.now) }
{
    let (next_file, rest) = number_from(0, bytes)?;
    let (floor, rest) = moment_at(rest)?;
    let (base, rest) = number_from(0, rest)?;
    let (segments, rest) = segment_list_at(alloc, rest)?;
    let (tables, rest) = table_list_at(alloc, rest)?;
    let (schema, rest) = text32_at(0, u32::MAX as usize, rest)?;
    if !rest.is_empty() {
        return Err(Fault::Bad { left: rest.len() });
    }
    let schema = Blob::new(alloc, schema)?;
    Ok(Snapshot {
        next_file,
        floor,
        base,
        segments,
        tables,
        schema,
    })
}

#[tactic(auto, unfolding(bt_codec::specs::Reading::counted_at, bt_codec::specs::Reading::number_with))]
fn segment_list_at(alloc: Global, bytes: &[u8]) -> Result<(SegmentList, &[u8]), Fault>
    ensures { Gives (λ x. (x.0, x.1.now)) result (list_at segments_at bytes.now) }
{
    let (count, rest) = u32_at(bytes)?;
    segments_at(alloc, count, rest)
}

fn segments_at(alloc: Global, count: u32, bytes: &[u8]) -> Result<(SegmentList, &[u8]), Fault>
    ensures { Gives (λ x. (x.0, x.1.now)) result (segments_at count bytes.now) }
{
    let mut segments = SegmentList::new(alloc);
    let mut rest = bytes;
    for _ in 0..count {
        let (segment, after) = segment_at(rest)?;
        segments.push(segment)?;
        rest = after;
    }
    Ok((segments, rest))
}

#[tactic(auto, unfolding(crate::specs::Reading::segment_at))]
fn segment_at(bytes: &[u8]) -> Result<(Segment, &[u8]), Fault>
    ensures { Gives (λ x. (x.0, x.1.now)) result (segment_at bytes.now) }
{
    let (file, rest) = number_from(0, bytes)?;
    let (first, rest) = number_from(0, rest)?;
    Ok((Segment { file, first }, rest))
}

#[tactic(auto, unfolding(bt_codec::specs::Reading::counted_at, bt_codec::specs::Reading::number_with))]
fn table_list_at(alloc: Global, bytes: &[u8]) -> Result<(TableFileList, &[u8]), Fault>
    ensures { Gives (λ x. (x.0, x.1.now)) result (list_at tables_at bytes.now) }
{
    let (count, rest) = u32_at(bytes)?;
    tables_at(alloc, count, rest)
}

fn tables_at(alloc: Global, count: u32, bytes: &[u8]) -> Result<(TableFileList, &[u8]), Fault>
    ensures { Gives (λ x. (x.0, x.1.now)) result (tables_at count bytes.now) }
{
    let mut tables = TableFileList::new(alloc);
    let mut least = 0;
    let mut rest = bytes;
    for _ in 0..count {
        let (table, after) = table_at(alloc, least, rest)?;
        least = table.incarnation + 1;
        tables.push(table)?;
        rest = after;
    }
    Ok((tables, rest))
}

#[tactic(auto, unfolding(crate::specs::Reading::table_at))]
fn table_at(alloc: Global, least: u64, bytes: &[u8]) -> Result<(TableFiles, &[u8]), Fault>
    ensures read { Gives (λ x. (x.0, x.1.now)) result (table_at least bytes.now) }
    ensures limit { IfOk result (λ x. x.0.incarnation ≤ most_number) }
{
    let (incarnation, rest) = number_from(least, bytes)?;
    let (lost, rest) = number_from(0, rest)?;
    let (files, rest) = file_list_at(alloc, rest)?;
    let table = TableFiles {
        incarnation,
        lost,
        files,
    };
    Ok((table, rest))
}

#[tactic(auto, unfolding(bt_codec::specs::Reading::counted_at, bt_codec::specs::Reading::number_with))]
fn file_list_at(alloc: Global, bytes: &[u8]) -> Result<(FileNumbers, &[u8]), Fault>
    ensures { Gives (λ x. (x.0, x.1.now)) result (list_at files_at bytes.now) }
{
    let (count, rest) = u32_at(bytes)?;
    files_at(alloc, count, rest)
}

fn files_at(alloc: Global, count: u32, bytes: &[u8]) -> Result<(FileNumbers, &[u8]), Fault>
    ensures { Gives (λ x. (x.0, x.1.now)) result (files_at count bytes.now) }
{
    let mut files = FileNumbers::new(alloc);
    let mut rest = bytes;
    for _ in 0..count {
        let (file, after) = number_from(0, rest)?;
        files.push(file)?;
        rest = after;
    }
    Ok((files, rest))
}
