ghost use Rattle.std.specs.Prelude.{◌≡◌, ◌≤◌, [], None, false, length, refl, IfSome, IsTrue};
ghost use Rattle.std.specs.declared.cmp.Ordering.TheVariants.{Less};
ghost use Rattle.bt_types.specs.Cells.{cell_cmp};

use super::*;
use bt_base::{Blob, Plain};
use bt_filter::{Filter, FilterList};
use bt_pattern::Pattern;
use bt_types::{
    Cell, CellList, FamilyName, Label, Micros, Qualifier, Reading, RowKey, Rows, SourceFault,
    cell_order,
};
use sqlite_items::{Boxed, Items};
use std::alloc::Global;
use std::cmp::Ordering;
use std::test::Fail;

// A reading of which nothing is told.
#[derive(Drop)]
struct Untold;

impl Reading for Untold {
    ghost tells = { λ _. ⊥ };

    ghost faults = { λ _. 0 };

    ghost failing = { λ _. false };

    ghost broken = { λ _ _ _. ⊥ };

    ghost same = { λ _ _. Unit {0} };

    ghost same_tells = { λ _ _ _ told. told };

    ghost same_self = { λ _. tt };

    ghost same_steps = { λ _ _ _ _ _. tt };

    ghost use Rattle.std.proofs.Math.Nat.{le_refl};

    ghost same_faults = { λ _ _ _. le_refl 0 };
}

// The cells left of a row, the last one first. It refuses cells that are out of order, labelled or
// too large.
#[derive(Drop)]
struct OneRow {
    alloc: Global,
    cells: Vec<Cell>,
    last: Option<Cell>,
}

impl OneRow {
    fn may_follow(&self, cell: &Cell) -> bool
        ensures order { IsTrue result → IfSome self.now.last (λ before. cell_cmp before cell.now ≡ Less) }
        ensures label { IsTrue result → cell.now.label ≡ None }
        ensures value { IsTrue result → length cell.now.value ≤ 4194304 }
    {
        if let Some(last) = &self.last {
            if cell_order(last, cell) != Ordering::Less {
                return false;
            }
        }
        cell.label.is_none() && cell.value.bytes().len() <= 4_194_304
    }
}

impl Rows<Untold> for OneRow {
    ghost tells_given = { ⊥ };

    ghost given = { λ _. [] };

    ghost left = { λ _ _. record { cells = []; rows = [] } };

    ghost most = { λ r. length r.cells.items };

    ghost key_at_hand = { λ _. None };

    ghost last_cell = { λ r. r.last };

    fn next_row(&mut self, _x: &mut Untold) -> Result<Option<RowKey>, SourceFault> {
        self.cells.clear();
        Ok(None)
    }

    fn next_cell(&mut self, _x: &mut Untold) -> Result<Option<Cell>, SourceFault> {
        let Some(cell) = self.cells.pop() else {
            return Ok(None);
        };
        if !self.may_follow(&cell) {
            return Err(SourceFault::OutOfMemory);
        }
        let copy = cell.copy(self.alloc)?;
        self.last = Some(copy);
        Ok(Some(cell))
    }

    ghost same_left = { λ _ _ _ _. refl };
}

// A cell's family, qualifier, timestamp in milliseconds, and value.
type Written = (&'static str, &'static str, i64, &'static str);

fn cell(alloc: Global, written: Written) -> Result<Cell, Fail> {
    let (family, qualifier, at, value) = written;
    let millis = at.checked_mul(1000).ok_or("timestamp")?;
    Ok(Cell::plain(
        FamilyName::new(alloc, family)?.ok_or("family")?,
        Qualifier::new(alloc, qualifier.as_bytes())?.ok_or("qualifier")?,
        Micros::new(millis).ok_or("timestamp")?,
        Blob::new(alloc, value.as_bytes())?,
    ))
}

fn row(alloc: Global, cells: &[Written]) -> Result<OneRow, Fail> {
    let mut left = Vec::new(alloc);
    for written in cells {
        left.push(cell(alloc, *written)?)?;
    }
    left.reverse();
    Ok(OneRow {
        alloc,
        cells: left,
        last: None,
    })
}

// Each cell as `FAMILY:QUALIFIER@MILLISECONDS=VALUE`, with `#LABEL` behind it where it has one.
fn printed(alloc: Global, cells: &CellList) -> Result<String, Fail> {
    let mut text = String::new(alloc);
    for cell in cells.items() {
        let family = cell.family.text();
        let qualifier = str::from_utf8(cell.qualifier.bytes())?;
        let at = cell.at.number() / 1000;
        let value = str::from_utf8(cell.value.bytes())?;
        let label = match &cell.label {
            Some(label) => label.text(),
            None => "",
        };
        let shown = format!(in alloc; "{family}:{qualifier}@{at}={value}#{label} ")?;
        text.push_str(shown.as_str())?;
    }
    Ok(text)
}

// What a filter leaves of a row.
fn left(alloc: Global, filter: Filter, cells: &[Written]) -> Result<String, Fail> {
    let key = RowKey::new(alloc, b"r")?.ok_or("key")?;
    let mut node = Node::new(alloc, filter)?;
    let mut rows = row(alloc, cells)?;
    let cells = filter_row(alloc, &mut node, &key, &mut rows, &mut Untold)?;
    printed(alloc, &cells)
}

fn pattern(alloc: Global, text: &[u8]) -> Result<Pattern, Fail> {
    Ok(Pattern::read(alloc, text)?)
}

fn label(alloc: Global, text: &str) -> Result<Filter, Fail> {
    Ok(Filter::Label(Label::new(alloc, text)?.ok_or("label")?))
}

fn pair(alloc: Global, a: Filter, b: Filter) -> Result<FilterList, Fail> {
    let mut list = Items::new(alloc);
    list.push(a)?;
    list.push(b)?;
    Ok(list)
}

// The cells of two columns of one family, and of a column of another.
const CELLS: [Written; 5] = [
    ("f", "a", 3, "v"),
    ("f", "a", 2, "w"),
    ("f", "b", 3, "x"),
    ("g", "b", 3, "y"),
    ("g", "b", 1, "z"),
];

// The example of `google.bigtable.v2.RowFilter.sink`.
#[test]
fn sunk_cells_pass_by_the_filters_behind(rt: HostRuntime) -> Result<(), Fail> {
    let alloc = rt.alloc();
    let sunk = Filter::Chain(pair(alloc, label(alloc, "foo")?, Filter::Sink)?);
    let both = Filter::Interleave(pair(alloc, Filter::Pass, sunk)?);
    let mut parts = pair(alloc, Filter::Family(pattern(alloc, b"A")?), both)?;
    parts.push(Filter::Qualifier(pattern(alloc, b"B")?))?;
    let cells = [("A", "A", 1, "w"), ("A", "B", 2, "x"), ("B", "B", 4, "z")];
    let text = left(alloc, Filter::Chain(parts), &cells)?;
    assert_eq!(rt; text.as_str(), "A:A@1=w#foo A:B@2=x# A:B@2=x#foo ");
    Ok(())
}

#[test]
fn equal_cells_of_an_interleave_stay(rt: HostRuntime) -> Result<(), Fail> {
    let alloc = rt.alloc();
    let columns = Filter::Qualifier(pattern(alloc, b"a")?);
    let filter = Filter::Interleave(pair(alloc, Filter::Strip, columns)?);
    let text = left(alloc, filter, &CELLS)?;
    let want = "f:a@3=# f:a@3=v# f:a@2=# f:a@2=w# f:b@3=# g:b@3=# g:b@1=# ";
    assert_eq!(rt; text.as_str(), want);
    Ok(())
}

#[test]
fn a_condition_goes_by_its_predicate(rt: HostRuntime) -> Result<(), Fail> {
    let alloc = rt.alloc();
    for (has_predicate, want) in [(true, "f:a@3=v# f:a@2=w# "), (false, "f:a@3=# f:a@2=# ")] {
        let predicate = match has_predicate {
            true => None,
            false => Some(Boxed::new(alloc, Filter::Block)?),
        };
        let filter = Filter::Condition {
            predicate,
            matched: Some(Boxed::new(alloc, Filter::Pass)?),
            unmatched: Some(Boxed::new(alloc, Filter::Strip)?),
        };
        let text = left(alloc, filter, &CELLS[..2])?;
        assert_eq!(rt; text.as_str(), want);
    }
    Ok(())
}

#[test]
fn cells_are_counted(rt: HostRuntime) -> Result<(), Fail> {
    let alloc = rt.alloc();
    let newest = left(alloc, Filter::ColumnLimit(1), &CELLS)?;
    assert_eq!(rt; newest.as_str(), "f:a@3=v# f:b@3=x# g:b@3=y# ");
    let none = left(alloc, Filter::ColumnLimit(0), &CELLS)?;
    assert_eq!(rt; none.as_str(), "");
    let later = left(alloc, Filter::RowOffset(3), &CELLS)?;
    assert_eq!(rt; later.as_str(), "g:b@3=y# g:b@1=z# ");
    let past = left(alloc, Filter::RowOffset(9), &CELLS)?;
    assert_eq!(rt; past.as_str(), "");
    let first = left(alloc, Filter::RowLimit(2), &CELLS)?;
    assert_eq!(rt; first.as_str(), "f:a@3=v# f:a@2=w# ");
    Ok(())
}
