ghost use Rattle.std.specs.Prelude.{◌≡◌, ◌≤◌, All, IfOk, length};

use crate::{Chunk, ChunkList, LastColumn, Packer, row_chunks};
use bt_base::Blob;
use bt_types::{Cell, CellList, FamilyName, FoundRow, Micros, Qualifier, RowKey};
use std::alloc::Global;
use std::test::Fail;

// A cell of so many zero bytes.
fn zero_cell(alloc: Global, family: &str, qualifier: &[u8], count: usize) -> Result<Cell, Fail>
    ensures { IfOk result (λ cell. length cell.value ≡ count) }
{
    let mut value = Vec::new(alloc);
    value.resize(count, 0)?;
    Ok(Cell::plain(
        FamilyName::new(alloc, family)?.ok_or("family")?,
        Qualifier::new(alloc, qualifier)?.ok_or("qualifier")?,
        Micros::new(1000).ok_or("timestamp")?,
        Blob::from_vec(value),
    ))
}

fn row_of(alloc: Global, cells: CellList) -> Result<FoundRow, Fail>
    ensures { IfOk result (λ row. row.cells ≡ cells) }
{
    let key = RowKey::new(alloc, b"r")?.ok_or("key")?;
    Ok(FoundRow { key, cells })
}

fn chunks_of_zeros(alloc: Global, count: usize) -> Result<ChunkList, Fail>
    requires { count ≤ 4194304 }
{
    let mut cells = CellList::new(alloc);
    cells.push(zero_cell(alloc, "f", b"q", count)?)?;
    let row = row_of(alloc, cells)?;
    Ok(row_chunks(alloc, &row, None)?)
}

// How many chunks each response has: those of rows of one cell of so many bytes, and the last one.
fn lengths_of_responses(alloc: Global, counts: &[usize]) -> Result<Vec<usize>, Fail>
    requires { All (λ n. n ≤ 4194304) counts.now }
{
    let mut packer = Packer::new(alloc);
    let mut lengths = Vec::new(alloc);
    for count in counts {
        for chunk in chunks_of_zeros(alloc, *count)?.into_vec() {
            if let Some(response) = packer.push(chunk)? {
                lengths.push(response.items().len())?;
            }
        }
    }
    lengths.push(packer.rest().items().len())?;
    Ok(lengths)
}

#[test]
fn long_values_are_split(rt: HostRuntime) -> Result<(), Fail> {
    let whole = chunks_of_zeros(rt.alloc(), 65_536)?;
    let [chunk] = whole.items() else {
        return Err(Fail::from("one chunk"));
    };
    assert_eq!(rt; chunk.size, 0);
    assert_eq!(rt; chunk.value.bytes().len(), 65_536);
    let split = chunks_of_zeros(rt.alloc(), 65_537)?;
    let [first, last] = split.items() else {
        return Err(Fail::from("two chunks"));
    };
    assert_eq!(rt; first.size, 65_537);
    assert_eq!(rt; first.value.bytes().len(), 65_536);
    assert!(rt; !first.commit);
    assert_eq!(rt; last.size, 0);
    assert_eq!(rt; last.value.bytes().len(), 1);
    assert!(rt; last.commit);
    Ok(())
}

#[test]
fn responses_are_closed(rt: HostRuntime) -> Result<(), Fail> {
    let alloc = rt.alloc();
    let full = lengths_of_responses(alloc, &[65_536, 65_536])?;
    assert_eq!(rt; full.as_slice(), [1, 1, 0].as_slice());
    let nearly = lengths_of_responses(alloc, &[65_535, 65_535])?;
    assert_eq!(rt; nearly.as_slice(), [2, 0].as_slice());
    let empty = lengths_of_responses(alloc, &[0; 70])?;
    assert_eq!(rt; empty.as_slice(), [64, 6].as_slice());
    Ok(())
}

fn names(chunk: &Chunk) -> (bool, bool) {
    (chunk.family.is_some(), chunk.qualifier.is_some())
}

#[test]
fn names_are_left_out(rt: HostRuntime) -> Result<(), Fail> {
    let alloc = rt.alloc();
    let mut cells = CellList::new(alloc);
    cells.push(zero_cell(alloc, "f", b"p", 0)?)?;
    cells.push(zero_cell(alloc, "f", b"q", 0)?)?;
    cells.push(zero_cell(alloc, "g", b"q", 0)?)?;
    cells.push(zero_cell(alloc, "g", b"q", 0)?)?;
    let row = row_of(alloc, cells)?;
    let last = LastColumn {
        family: FamilyName::new(alloc, "f")?.ok_or("family")?,
        qualifier: Qualifier::new(alloc, b"o")?.ok_or("qualifier")?,
    };
    let chunks = row_chunks(alloc, &row, Some(&last))?;
    let [first, second, third, fourth] = chunks.items() else {
        return Err(Fail::from("four chunks"));
    };
    assert!(rt; first.key.bytes().is_empty());
    assert_eq!(rt; names(first), (false, true));
    assert_eq!(rt; names(second), (false, true));
    assert_eq!(rt; names(third), (true, true));
    assert_eq!(rt; names(fourth), (false, false));
    Ok(())
}
