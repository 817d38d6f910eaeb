//! The rows of a table in a range of keys, one after another.
ghost use Rattle.std.specs.Prelude.{◌≡◌, [], refl, unwrap_or};
ghost use Rattle.std.specs.Map.Iter.{TakesFirst};
ghost use Rattle.bt_contents.specs.Contents.{AreHeld, seen};
ghost use Rattle.bt_contents.specs.Ranges.{answers_of, unread};

use bt_base::{Blob, Plain};
use bt_row::{CellKey, Row, copy_of};
use bt_types::{Cell, NoReads, RowKey, Rows, SourceFault};
use std::alloc::Global;
use std::collections::btree_map::{Iter, Range};
use std::marker::Model;

/// The rows of a table in a range of keys, read from memory. It copies each key and each cell that
/// it gives, and refuses only where memory is short.
#[derive(Drop)]
pub struct ContentsRows<'a> {
    alloc: Global,
    // The rows behind the row at hand; `None` where there are none.
    rows: Option<Range<'a, RowKey, Row>>,
    key: Option<&'a RowKey>,
    // The cells left of the row at hand; `None` where there are none.
    cells: Option<Iter<'a, CellKey, Blob>>,
    last: Option<(&'a CellKey, &'a Blob)>,
}

impl<'a> Model for ContentsRows<'a> {
    ghost use Rattle.std.specs.Prelude.{[], option_map, unwrap_or};
    ghost use Rattle.bt_contents.specs.Contents.{seen};
    ghost use Rattle.bt_row.specs.Keys.{cell_at, cells_of};
    ghost use Rattle.bt_contents.specs.Ranges.{Unread, GoesOn};

    ghost Value = { Unread };

    ghost view = { λ c. record { rows = seen (unwrap_or c.rows []); cells = cells_of (unwrap_or c.cells []); key = option_map (λ k. k.now) c.key; last = option_map (λ p. cell_at p.0.now p.1.now) c.last } };

    ghost invariant = { λ c. GoesOn (option_map (λ k. k.now) c.key) (option_map (λ p. cell_at p.0.now p.1.now) c.last) (cells_of (unwrap_or c.cells [])) (seen (unwrap_or c.rows [])) };
}

impl<'a> ContentsRows<'a> {
    /// Of these rows nothing was given.
    pub(crate) fn new(alloc: Global, rows: Option<Range<'a, RowKey, Row>>) -> ContentsRows<'a>
        requires { AreHeld (unwrap_or rows []) }
        ensures { result ≡ unread (seen (unwrap_or rows.entry [])) }
    {
        ContentsRows {
            alloc,
            rows,
            key: None,
            cells: None,
            last: None,
        }
    }

    /// No rows, which takes no memory.
    pub fn empty(alloc: Global) -> ContentsRows<'a>
        ensures { result ≡ unread [] }
    {
        ContentsRows::new(alloc, None)
    }
}

impl<'a> Rows<NoReads> for ContentsRows<'a> {
    ghost use Rattle.std.specs.Prelude.{◌+◌, [], length};

    ghost tells_given = { ⊥ };

    ghost given = { λ _. [] };

    ghost left = { λ c _. record { cells = c.cells; rows = c.rows } };

    ghost most = { λ c. length c.cells + answers_of c.rows };

    ghost key_at_hand = { λ c. c.key };

    ghost last_cell = { λ c. c.last };

    fn next_row(&mut self, _x: &mut NoReads) -> Result<Option<RowKey>, SourceFault> {
        let Some((key, row)) = next_row(&mut self.rows) else {
            self.cells = None;
            return Ok(None);
        };
        let copy = key.copy(self.alloc)?;
        self.key = Some(key);
        self.cells = Some(row.cells.iter());
        self.last = None;
        Ok(Some(copy))
    }

    fn next_cell(&mut self, _x: &mut NoReads) -> Result<Option<Cell>, SourceFault> {
        let Some((key, value)) = next_value(&mut self.cells) else {
            return Ok(None);
        };
        let copy = copy_of(self.alloc, key, value)?;
        self.last = Some((key, value));
        Ok(Some(copy))
    }

    ghost same_left = { λ _ _ _ _. refl };
}

fn next_row<'a>(rows: &mut Option<Range<'a, RowKey, Row>>) -> Option<(&'a RowKey, &'a Row)>
    ensures { TakesFirst (λ p. (p.0.now, p.1.now)) (unwrap_or rows.old []) result (unwrap_or rows.new []) }
{
    match rows {
        Some(rows) => rows.next(),
        None => None,
    }
}

fn next_value<'a>(cells: &mut Option<Iter<'a, CellKey, Blob>>) -> Option<(&'a CellKey, &'a Blob)>
    ensures { TakesFirst (λ p. (p.0.now, p.1.now)) (unwrap_or cells.old []) result (unwrap_or cells.new []) }
{
    match cells {
        Some(cells) => cells.next(),
        None => None,
    }
}
