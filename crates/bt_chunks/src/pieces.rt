//! The chunks of a row.
ghost use Rattle.std.specs.Prelude.{◌≡◌, ◌≤◌, ◌<◌, [], ◌++◌, Some, None, IfOk, OnOk, length, option_map};
ghost use Rattle.bt_types.specs.Cells.{AreShort};
ghost use Rattle.bt_chunks.specs.Chunks.{chunks_of_cells, further_pieces, piece, where_asked};
ghost use Rattle.bt_chunks.specs.Pieces.{bare_chunk, column_before, value_chunks};

use crate::{Chunk, ChunkList, LastColumn};
use bt_base::{Blob, OutOfMemory, Plain};
use bt_types::{Cell, FamilyName, FoundRow, Label, Qualifier, RowKey};
use std::alloc::Global;

const MOST_OF_PIECE: usize = 65_536;

/// The chunks of the cells left of a row (`google.bigtable.v2.ReadRowsResponse.CellChunk`). `last`
/// is the column of the cell before them in the row, and `None` at the row's start. A value of more
/// than 65,536 bytes goes out in pieces of so many, and a last piece of at least 1 byte.
pub fn row_chunks(
    alloc: Global,
    row: &FoundRow,
    last: Option<&LastColumn>,
) -> Result<ChunkList, OutOfMemory>
    requires { AreShort row.now.cells }
    ensures { IfOk result (λ chunks. chunks ≡ chunks_of_cells row.now.key (option_map (λ c. c.now) last.entry) row.now.cells) }
{
    let mut chunks = ChunkList::new(alloc);
    let cells = row.cells.items();
    let mut before = None;
    for (place, cell) in cells.iter().enumerate() {
        let first = first_chunk(alloc, &row.key, last, before, cell)?;
        let ends_row = place + 1 == cells.len();
        put_value(alloc, &mut chunks, first, cell.value.bytes(), ends_row)?;
        before = Some(cell);
    }
    Ok(chunks)
}

// The first chunk of the cell, still without its bytes.
fn first_chunk(
    alloc: Global,
    key: &RowKey,
    last: Option<&LastColumn>,
    before: Option<&Cell>,
    cell: &Cell,
) -> Result<Chunk, OutOfMemory>
    ensures { IfOk result (λ chunk. chunk
        ≡ bare_chunk key.now (column_before (option_map (λ c. c.now) last.entry) (option_map (λ c. c.now) before.entry)) cell.now) }
{
    match (before, last) {
        (Some(before), _) => within_row(alloc, &before.family, &before.qualifier, cell),
        (None, Some(last)) => within_row(alloc, &last.family, &last.qualifier, cell),
        (None, None) => at_start(alloc, key, cell),
    }
}

fn at_start(alloc: Global, key: &RowKey, cell: &Cell) -> Result<Chunk, OutOfMemory>
    ensures { IfOk result (λ chunk. chunk ≡ bare_chunk key.now None cell.now) }
{
    Ok(Chunk {
        key: Blob::new(alloc, key.bytes())?,
        family: Some(Blob::new(alloc, cell.family.bytes())?),
        qualifier: Some(Blob::new(alloc, cell.qualifier.bytes())?),
        at: cell.at.number(),
        label: label_copy(alloc, &cell.label)?,
        value: Blob::from_vec(Vec::new(alloc)),
        size: 0,
        commit: false,
    })
}

// The names that are as in the cell before, whose column these are, are left out.
fn within_row(
    alloc: Global,
    family: &FamilyName,
    qualifier: &Qualifier,
    cell: &Cell,
) -> Result<Chunk, OutOfMemory>
    ensures { IfOk result (λ chunk. chunk ≡ bare_chunk [] (Some (record { family = family.now; qualifier = qualifier.now })) cell.now) }
{
    let is_family = family.bytes() == cell.family.bytes();
    let is_column = is_family && qualifier.bytes() == cell.qualifier.bytes();
    Ok(Chunk {
        key: Blob::from_vec(Vec::new(alloc)),
        family: where_asked(alloc, !is_family, cell.family.bytes())?,
        qualifier: where_asked(alloc, !is_column, cell.qualifier.bytes())?,
        at: cell.at.number(),
        label: label_copy(alloc, &cell.label)?,
        value: Blob::from_vec(Vec::new(alloc)),
        size: 0,
        commit: false,
    })
}

fn where_asked(alloc: Global, asked: bool, name: &[u8]) -> Result<Option<Blob>, OutOfMemory>
    ensures { IfOk result (λ copy. copy ≡ where_asked asked name.now) }
{
    if asked {
        return Ok(Some(Blob::new(alloc, name)?));
    }
    Ok(None)
}

fn label_copy(alloc: Global, label: &Option<Label>) -> Result<Option<Label>, OutOfMemory>
    ensures { IfOk result (λ copy. copy ≡ label.now) }
{
    match label {
        Some(label) => Ok(Some(label.copy(alloc)?)),
        None => Ok(None),
    }
}

// Puts the chunks of a cell with that value, the first of which is still without its bytes.
fn put_value(
    alloc: Global,
    chunks: &mut ChunkList,
    mut first: Chunk,
    value: &[u8],
    ends_row: bool,
) -> Result<(), OutOfMemory>
    requires { length value.now ≤ 4194304 }
    ensures { OnOk result (chunks.new ≡ chunks.old ++ value_chunks first value.now ends_row) }
{
    if value.len() <= MOST_OF_PIECE {
        first.value = Blob::new(alloc, value)?;
        first.size = 0;
        first.commit = ends_row;
        chunks.push(first)?;
        return Ok(());
    }
    let size = value.len() as u32;
    let (front, rest) = value.split_at(MOST_OF_PIECE);
    first.value = Blob::new(alloc, front)?;
    first.size = size;
    first.commit = false;
    chunks.push(first)?;
    put_pieces(alloc, chunks, size, rest, ends_row)
}

// Puts the further pieces of a value of that size; `value` has the bytes that are left of it.
#[tactic(auto, using(crate::proofs::Values::pieces_begun))]
fn put_pieces(
    alloc: Global,
    chunks: &mut ChunkList,
    size: u32,
    value: &[u8],
    ends_row: bool,
) -> Result<(), OutOfMemory>
    requires filled { 0 < length value.now }
    requires size { length value.now ≤ size }
    ensures { OnOk result (chunks.new ≡ chunks.old ++ further_pieces size size ends_row value.now) }
{
    let mut left = value;
    while left.len() > MOST_OF_PIECE {
        let (front, rest) = left.split_at(MOST_OF_PIECE);
        let further = piece(alloc, front, size, false)?;
        chunks.push(further)?;
        left = rest;
    }
    let further = piece(alloc, left, 0, ends_row)?;
    chunks.push(further)?;
    Ok(())
}

fn piece(alloc: Global, value: &[u8], size: u32, commit: bool) -> Result<Chunk, OutOfMemory>
    ensures { IfOk result (λ chunk. chunk ≡ piece value.now size commit) }
{
    Ok(Chunk {
        key: Blob::from_vec(Vec::new(alloc)),
        family: None,
        qualifier: None,
        at: 0,
        label: None,
        value: Blob::new(alloc, value)?,
        size,
        commit,
    })
}
