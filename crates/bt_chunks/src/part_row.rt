//! A row of which chunks are to come.
ghost use Rattle.std.specs.Prelude.{◌≡◌, [], Some, None, IfOk, IfSome, OnOk, OnErr, IsTrue, is_some, option_map};
ghost use Rattle.bt_chunks.specs.Joiner.{Becomes};
ghost use Rattle.bt_chunks.specs.Joining.{fits, is_above, is_piece, is_within_row, is_zero, new_cell, row_begun, row_goes_on, row_with_cell, row_with_piece, with_cell, with_piece};

use crate::Chunk;
use crate::first_chunks::{may_follow, new_cell};
use bt_base::{Blob, OutOfMemory, Plain};
use bt_types::{Cell, CellList, FamilyName, FoundRow, Label, Micros, Qualifier, RowKey};
use std::alloc::Global;
use std::marker::Model;

// A value of which pieces are to come, with the size in bytes of the whole.
#[derive(Drop)]
pub(crate) struct BegunValue {
    family: FamilyName,
    qualifier: Qualifier,
    at: Micros,
    label: Option<Label>,
    bytes: Vec<u8>,
    size: u32,
}

impl Model for BegunValue {
    ghost use Rattle.bt_chunks.specs.Joining.{Begun};

    ghost Value = { Begun };

    ghost view = { λ v. record { cell = record { family = v.family; qualifier = v.qualifier; at = v.at; value = v.bytes.items; label = v.label }; size = v.size } };
}

impl BegunValue {
    // The value that the cell begins, of that size.
    fn new(alloc: Global, cell: Cell, size: u32) -> Result<BegunValue, OutOfMemory>
        ensures { IfOk result (λ value. value ≡ record { cell = cell; size = size }) }
    {
        let bytes = Vec::from_slice(alloc, cell.value.bytes())?;
        Ok(BegunValue {
            family: cell.family,
            qualifier: cell.qualifier,
            at: cell.at,
            label: cell.label,
            bytes,
            size,
        })
    }

    fn fits(&self, chunk: &Chunk) -> bool
        ensures { result ≡ fits self.now chunk.now }
    {
        let size = self.size as usize;
        let so_far = self.bytes.len() + chunk.value.bytes().len();
        if so_far == size {
            chunk.size == 0
        } else {
            so_far < size && chunk.size == self.size && !chunk.commit
        }
    }

    fn append(&mut self, bytes: &[u8]) -> Result<(), OutOfMemory>
        ensures ok { OnOk result (self.new ≡ record self.old { cell = with_piece self.old bytes.now }) }
        ensures err { OnErr result (self.new ≡ self.old) }
    {
        self.bytes.extend_from_slice(bytes)?;
        Ok(())
    }

    fn into_cell(self) -> Cell
        ensures { result ≡ self.cell }
    {
        Cell {
            family: self.family,
            qualifier: self.qualifier,
            at: self.at,
            value: Blob::from_vec(self.bytes),
            label: self.label,
        }
    }
}

// A row of which chunks are to come: its whole cells so far, and the value that is begun.
#[derive(Drop)]
pub(crate) struct PartRow {
    key: RowKey,
    cells: Vec<Cell>,
    value: Option<BegunValue>,
}

impl Model for PartRow {
    ghost use Rattle.bt_chunks.specs.Joining.{Part};

    ghost Value = { Part };

    ghost view = { λ r. record { key = r.key; cells = r.cells.items; value = r.value } };
}

impl PartRow {
    // The row that the chunk begins, behind the row with that key.
    pub(crate) fn begun(
        alloc: Global,
        before: &Option<RowKey>,
        chunk: Chunk,
    ) -> Result<Option<PartRow>, OutOfMemory>
        ensures { IfOk result (λ row. row ≡ row_begun before.now chunk) }
    {
        let Some(key) = RowKey::new(alloc, chunk.key.bytes())? else {
            return Ok(None);
        };
        if !is_above(before, &key) {
            return Ok(None);
        }
        PartRow::with_first(alloc, key, chunk)
    }

    fn with_first(alloc: Global, key: RowKey, chunk: Chunk) -> Result<Option<PartRow>, OutOfMemory>
        ensures { IfOk result (λ row. row ≡ option_map (with_cell key [] chunk.size) (new_cell None chunk)) }
    {
        let size = chunk.size;
        let Some(cell) = new_cell(alloc, &[], chunk)? else {
            return Ok(None);
        };
        let mut row = PartRow {
            key,
            cells: Vec::new(alloc),
            value: None,
        };
        row.put(alloc, size, cell)?;
        Ok(Some(row))
    }

    // Adds the chunk, and tells whether it has a place; the row stays as it is where it has none.
    pub(crate) fn add(&mut self, alloc: Global, chunk: Chunk) -> Result<bool, OutOfMemory>
        ensures added { IfOk result (λ has_place. Becomes has_place (row_goes_on self.old self.old.value chunk) self.old self.new) }
        ensures err { OnErr result (self.new ≡ self.old) }
    {
        if self.value.is_some() {
            self.add_piece(&chunk)
        } else {
            self.add_cell(alloc, chunk)
        }
    }

    fn add_cell(&mut self, alloc: Global, chunk: Chunk) -> Result<bool, OutOfMemory>
        requires { self.old.value ≡ None }
        ensures added { IfOk result (λ has_place. Becomes has_place (row_with_cell self.old chunk) self.old self.new) }
        ensures err { OnErr result (self.new ≡ self.old) }
    {
        if !is_within_row(&chunk) {
            return Ok(false);
        }
        let size = chunk.size;
        let Some(cell) = new_cell(alloc, &self.cells, chunk)? else {
            return Ok(false);
        };
        if !may_follow(&self.cells, &cell) {
            return Ok(false);
        }
        self.put(alloc, size, cell)?;
        Ok(true)
    }

    // Puts a cell behind the others: a whole one where no size is told, or else one that is begun.
    fn put(&mut self, alloc: Global, size: u32, cell: Cell) -> Result<(), OutOfMemory>
        requires { self.old.value ≡ None }
        ensures ok { OnOk result (self.new ≡ with_cell self.old.key self.old.cells size cell) }
        ensures err { OnErr result (self.new ≡ self.old) }
    {
        if size == 0 {
            self.cells.push(cell)?;
        } else {
            self.value = Some(BegunValue::new(alloc, cell, size)?);
        }
        Ok(())
    }

    fn add_piece(&mut self, chunk: &Chunk) -> Result<bool, OutOfMemory>
        requires { IsTrue (is_some self.old.value) }
        ensures added { IfOk result (λ has_place. Becomes has_place (row_goes_on self.old self.old.value chunk.now) self.old self.new) }
        ensures err { OnErr result (self.new ≡ self.old) }
    {
        if !is_piece(chunk) || !self.value_fits(chunk) {
            return Ok(false);
        }
        if chunk.size == 0 {
            self.complete(chunk.value.bytes())?;
        } else {
            self.lengthen(chunk.value.bytes())?;
        }
        Ok(true)
    }

    fn value_fits(&self, chunk: &Chunk) -> bool
        requires { IsTrue (is_some self.now.value) }
        ensures { IfSome self.now.value (λ b. result ≡ fits b chunk.now) }
    {
        match &self.value {
            Some(value) => value.fits(chunk),
            None => unreachable!(),
        }
    }

    // Adds the last piece of the value.
    fn complete(&mut self, bytes: &[u8]) -> Result<(), OutOfMemory>
        requires { IsTrue (is_some self.old.value) }
        ensures ok { IfSome self.old.value (λ b. OnOk result (self.new ≡ with_cell self.old.key self.old.cells 0 (with_piece b bytes.now))) }
        ensures err { OnErr result (self.new ≡ self.old) }
    {
        self.cells.try_reserve(1)?;
        match &mut self.value {
            Some(value) => value.append(bytes)?,
            None => unreachable!(),
        }
        if let Some(value) = self.value.take() {
            self.cells.push(value.into_cell())?;
        }
        Ok(())
    }

    // Adds another piece of the value.
    fn lengthen(&mut self, bytes: &[u8]) -> Result<(), OutOfMemory>
        requires { IsTrue (is_some self.old.value) }
        ensures ok { IfSome self.old.value (λ b. OnOk result (self.new ≡ record self.old { value = Some (record { cell = with_piece b bytes.now; size = b.size }) })) }
        ensures err { OnErr result (self.new ≡ self.old) }
    {
        match &mut self.value {
            Some(value) => value.append(bytes),
            None => unreachable!(),
        }
    }

    pub(crate) fn key(&self) -> &RowKey
        ensures { result.now ≡ self.now.key }
    {
        &self.key
    }

    // The row, which ends here.
    pub(crate) fn into_found(self) -> FoundRow
        ensures { result ≡ record { key = self.key; cells = self.cells } }
    {
        FoundRow {
            key: self.key,
            cells: CellList::from_vec(self.cells),
        }
    }
}

fn is_above(before: &Option<RowKey>, key: &RowKey) -> bool
    ensures { result ≡ is_above before.now key.now }
{
    match before {
        Some(before) => before < key,
        None => true,
    }
}

// Within a row there is no key, and a family only with a qualifier.
fn is_within_row(chunk: &Chunk) -> bool
    ensures { result ≡ is_within_row chunk.now }
{
    chunk.key.bytes().is_empty() && (chunk.family.is_none() || chunk.qualifier.is_some())
}

// Within a value nothing else is set.
fn is_piece(chunk: &Chunk) -> bool
    ensures { result ≡ is_piece chunk.now }
{
    chunk.key.bytes().is_empty()
        && chunk.family.is_none()
        && chunk.qualifier.is_none()
        && chunk.label.is_none()
        && is_zero(chunk.at)
}

fn is_zero(at: i64) -> bool
    ensures { result ≡ is_zero at }
{
    at == 0
}
