ghost use Rattle.std.specs.Prelude.{◌≡◌, ◌≤◌, ◌+◌, [], None, false, length, refl, IfSome, IsTrue};
ghost use Rattle.std.specs.Ordering.{nat_cmp};
ghost use Rattle.std.specs.Cmp.Lexicographic.{slice_cmp};
ghost use Rattle.std.specs.declared.cmp.Ordering.TheVariants.{Less};
ghost use Rattle.bt_types.specs.Cells.{cell_cmp};

use super::*;
use bt_base::{Blob, Plain};
use bt_filter::Filter;
use bt_filter_run::Node;
use bt_pattern::Pattern;
use bt_types::{
    Cell, FamilyName, Micros, Qualifier, Reading, RowKey, Rows, SourceFault, cell_order,
};
use std::alloc::Global;
use std::cmp::Ordering;
use std::test::Fail;

// A reading of which nothing is told.
#[derive(Drop)]
struct Untold;

impl Reading for Untold {
    ghost tells = { λ _. ⊥ };

    ghost faults = { λ _. 0 };

    ghost failing = { λ _. false };

    ghost broken = { λ _ _ _. ⊥ };

    ghost same = { λ _ _. Unit {0} };

    ghost same_tells = { λ _ _ _ told. told };

    ghost same_self = { λ _. tt };

    ghost same_steps = { λ _ _ _ _ _. tt };

    ghost use Rattle.std.proofs.Math.Nat.{le_refl};

    ghost same_faults = { λ _ _ _. le_refl 0 };
}

// Rows of one cell each, the last one first, and what is left of the row at hand. It refuses what is
// out of order, labelled or too large.
#[derive(Drop)]
struct FewRows {
    alloc: Global,
    rows: Vec<(RowKey, Cell)>,
    key: Option<RowKey>,
    cells: Vec<Cell>,
    last: Option<Cell>,
}

impl FewRows {
    fn may_be_next(&self, key: &RowKey) -> bool
        ensures { IsTrue result → IfSome self.now.key (λ before. slice_cmp nat_cmp before key.now ≡ Less) }
    {
        match &self.key {
            Some(before) => before.cmp(key) == Ordering::Less,
            None => true,
        }
    }

    fn may_follow(&self, cell: &Cell) -> bool
        ensures order { IsTrue result → IfSome self.now.last (λ before. cell_cmp before cell.now ≡ Less) }
        ensures label { IsTrue result → cell.now.label ≡ None }
        ensures value { IsTrue result → length cell.now.value ≤ 4194304 }
    {
        if let Some(last) = &self.last {
            if cell_order(last, cell) != Ordering::Less {
                return false;
            }
        }
        cell.label.is_none() && cell.value.bytes().len() <= 4_194_304
    }
}

impl Rows<Untold> for FewRows {
    ghost tells_given = { ⊥ };

    ghost given = { λ _. [] };

    ghost left = { λ _ _. record { cells = []; rows = [] } };

    ghost most = { λ r. length r.rows.items + length r.rows.items + length r.cells.items };

    ghost key_at_hand = { λ r. r.key };

    ghost last_cell = { λ r. r.last };

    fn next_row(&mut self, _x: &mut Untold) -> Result<Option<RowKey>, SourceFault> {
        let Some((key, cell)) = self.rows.pop() else {
            return Ok(None);
        };
        if !self.may_be_next(&key) {
            return Err(SourceFault::OutOfMemory);
        }
        self.cells.clear();
        let Ok(()) = self.cells.push(cell) else {
            return Err(SourceFault::OutOfMemory);
        };
        let copy = key.copy(self.alloc)?;
        self.key = Some(copy);
        self.last = None;
        Ok(Some(key))
    }

    fn next_cell(&mut self, _x: &mut Untold) -> Result<Option<Cell>, SourceFault> {
        let Some(cell) = self.cells.pop() else {
            return Ok(None);
        };
        if !self.may_follow(&cell) {
            return Err(SourceFault::OutOfMemory);
        }
        let copy = cell.copy(self.alloc)?;
        self.last = Some(copy);
        Ok(Some(cell))
    }

    ghost same_left = { λ _ _ _ _. refl };
}

// The row with that key, whose cell has that value.
fn row(alloc: Global, key: &str, value: &str) -> Result<(RowKey, Cell), Fail> {
    let cell = Cell::plain(
        FamilyName::new(alloc, "f")?.ok_or("family")?,
        Qualifier::new(alloc, b"q")?.ok_or("qualifier")?,
        Micros::new(0).ok_or("timestamp")?,
        Blob::new(alloc, value.as_bytes())?,
    );
    Ok((RowKey::new(alloc, key.as_bytes())?.ok_or("key")?, cell))
}

fn rows(alloc: Global, written: &[(&'static str, &'static str)]) -> Result<FewRows, Fail> {
    let mut rows = Vec::new(alloc);
    for (key, value) in written {
        rows.push(row(alloc, key, value)?)?;
    }
    rows.reverse();
    Ok(FewRows {
        alloc,
        rows,
        key: None,
        cells: Vec::new(alloc),
        last: None,
    })
}

// The key of the next row, or nothing.
fn next_key(alloc: Global, read: &mut RowsRead, rows: &mut FewRows) -> Result<String, Fail> {
    let Some(row) = read.next_row(alloc, rows, &mut Untold)? else {
        return Ok(String::new(alloc));
    };
    let text = str::from_utf8(row.key.bytes())?;
    let mut key = String::new(alloc);
    key.push_str(text)?;
    Ok(key)
}

const ROWS: [(&str, &str); 5] = [("a", "v"), ("b", "w"), ("c", "v"), ("d", "v"), ("e", "w")];

// Rows of which the filter leaves nothing do not count.
#[test]
fn rows_with_cells_count_alone(rt: HostRuntime) -> Result<(), Fail> {
    let alloc = rt.alloc();
    let filter = Filter::Value(Pattern::read(alloc, b"w")?);
    let mut read = RowsRead::new(Node::new(alloc, filter)?, 2);
    let mut rows = rows(alloc, &ROWS)?;
    for want in ["b", "e", ""] {
        let key = next_key(alloc, &mut read, &mut rows)?;
        assert_eq!(rt; key.as_str(), want);
    }
    Ok(())
}

#[test]
fn nothing_is_pulled_behind_the_last_row(rt: HostRuntime) -> Result<(), Fail> {
    let alloc = rt.alloc();
    let mut read = RowsRead::new(Node::new(alloc, Filter::Pass)?, 2);
    let mut rows = rows(alloc, &ROWS)?;
    for want in ["a", "b", ""] {
        let key = next_key(alloc, &mut read, &mut rows)?;
        assert_eq!(rt; key.as_str(), want);
    }
    assert_eq!(rt; rows.rows.len(), 3);
    Ok(())
}
