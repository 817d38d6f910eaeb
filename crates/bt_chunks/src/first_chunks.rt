//! The cell that a chunk begins.
ghost use Rattle.std.specs.Prelude.{◌≡◌, IfOk, IsTrue, option_map};
ghost use Rattle.bt_types.specs.Grammar.{is_family_name, is_label, is_qualifier, lawful};
ghost use Rattle.bt_chunks.specs.Joining.{begins_value, is_lawful_or_none, last_cell, may_follow, named, new_cell};

use crate::Chunk;
use bt_base::{Blob, OutOfMemory, Plain};
use bt_types::{Cell, FamilyName, Label, Micros, Qualifier, cell_order};
use std::alloc::Global;
use std::cmp::Ordering;

// The cell that the chunk begins behind these of its row. What the chunk does not name is as in
// the last one.
pub(crate) fn new_cell(
    alloc: Global,
    before: &[Cell],
    chunk: Chunk,
) -> Result<Option<Cell>, OutOfMemory>
    ensures { IfOk result (λ cell. cell ≡ new_cell (last_cell before.now) chunk) }
{
    see_lawful(&chunk.label);
    if !begins_value(&chunk) {
        return Ok(None);
    }
    let Some(family) = family_of(alloc, &chunk.family, before)? else {
        return Ok(None);
    };
    let Some(qualifier) = qualifier_of(alloc, &chunk.qualifier, before)? else {
        return Ok(None);
    };
    let Some(at) = Micros::new(chunk.at) else {
        return Ok(None);
    };
    Ok(Some(Cell {
        family,
        qualifier,
        at,
        value: chunk.value,
        label: chunk.label,
    }))
}

// A label is lawful by its type.
fn see_lawful(label: &Option<Label>)
    ensures { IsTrue (is_lawful_or_none is_label label.now) }
{
    if let Some(label) = label {
        let _bytes = label.bytes();
    }
}

fn begins_value(chunk: &Chunk) -> bool
    ensures { result ≡ begins_value chunk.now }
{
    let length = chunk.value.bytes().len();
    chunk.size == 0 || (length > 0 && length < chunk.size as usize && !chunk.commit)
}

fn family_of(
    alloc: Global,
    given: &Option<Blob>,
    before: &[Cell],
) -> Result<Option<FamilyName>, OutOfMemory>
    ensures { IfOk result (λ name. name ≡ named is_family_name given.now (option_map (λ c. c.family) (last_cell before.now))) }
{
    match given {
        Some(bytes) => FamilyName::from_bytes(alloc, bytes.bytes()),
        None => last_family(alloc, before),
    }
}

#[tactic(auto, using(crate::proofs::Names::last_is))]
fn last_family(alloc: Global, before: &[Cell]) -> Result<Option<FamilyName>, OutOfMemory>
    ensures { IfOk result (λ name. name ≡ option_map (λ c. c.family) (last_cell before.now)) }
{
    match before.last() {
        Some(last) => Ok(Some(last.family.copy(alloc)?)),
        None => Ok(None),
    }
}

fn qualifier_of(
    alloc: Global,
    given: &Option<Blob>,
    before: &[Cell],
) -> Result<Option<Qualifier>, OutOfMemory>
    ensures { IfOk result (λ name. name ≡ named is_qualifier given.now (option_map (λ c. c.qualifier) (last_cell before.now))) }
{
    match given {
        Some(bytes) => Qualifier::new(alloc, bytes.bytes()),
        None => last_qualifier(alloc, before),
    }
}

#[tactic(auto, using(crate::proofs::Names::last_is))]
fn last_qualifier(alloc: Global, before: &[Cell]) -> Result<Option<Qualifier>, OutOfMemory>
    ensures { IfOk result (λ name. name ≡ option_map (λ c. c.qualifier) (last_cell before.now)) }
{
    match before.last() {
        Some(last) => Ok(Some(last.qualifier.copy(alloc)?)),
        None => Ok(None),
    }
}

/// Whether the cell may stand behind these of its row.
#[tactic(auto, using(crate::proofs::Names::last_is))]
pub(crate) fn may_follow(before: &[Cell], cell: &Cell) -> bool
    ensures { result ≡ may_follow (last_cell before.now) cell.now }
{
    match before.last() {
        Some(last) => !matches!(cell_order(last, cell), Ordering::Greater),
        None => true,
    }
}
