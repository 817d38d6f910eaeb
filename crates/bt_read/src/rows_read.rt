//! Reads of rows.
ghost use Rattle.std.specs.Prelude.{◌≡◌, ◌<◌, ◌≢◌, List, ℕ, None, Ok, Option, Some, IfErr, IfOk, IfSome, map};
ghost use Rattle.std.specs.Ordering.{nat_cmp};
ghost use Rattle.std.specs.Cmp.Lexicographic.{slice_cmp};
ghost use Rattle.std.specs.declared.cmp.Ordering.TheVariants.{Less};
ghost use Rattle.bt_types.specs.Sources.{Falls, IsCaused};
ghost use Rattle.bt_read.specs.Answers.{GivesFound, IsFound, found, found_row, left_of, limit_of};
ghost use Rattle.bt_read.specs.Rows.{IsRead};

use bt_filter_run::{Node, filter_row};
use bt_types::{FoundRow, Reading, Rows, SourceFault};
use std::alloc::Global;
use std::marker::Model;

/// Reads the rows of an answer, one after another: those of which a filter leaves cells, up to a
/// limit (`google.bigtable.v2.ReadRowsRequest`). It holds neither the rows nor what they are read
/// from: each call is given both. After a refusal it is only dropped. A contract sees the filter,
/// and how many rows it may still give.
#[derive(Drop)]
pub struct RowsRead {
    node: Node,
    rows_left: Option<u64>,
}

impl Model for RowsRead {
    ghost use Rattle.bt_filter.specs.contracts.filter.Filter as e;
    ghost use Rattle.std.specs.Coded.{codes};
    ghost use Rattle.bt_read.specs.Answers.{Read};

    ghost Value = { Read };

    ghost coded = { Prim.hlevel (codes, e.the_row.coded) };

    ghost view = { λ r. record { filter = r.node; rows_left = r.rows_left } };
}

impl RowsRead {
    /// Makes ready to read with a filter. A `rows_limit` of 0 is no limit.
    pub fn new(node: Node, rows_limit: u64) -> RowsRead
        ensures { result ≡ record { filter = node; rows_left = limit_of rows_limit } }
    {
        let rows_left = if rows_limit == 0 {
            None
        } else {
            Some(rows_limit)
        };
        RowsRead { node, rows_left }
    }

    /// The next row that has cells left, or `None` behind the last. After the last row that the limit
    /// allows nothing is pulled from `rows`. Other errors than those of the rows come only for want
    /// of memory.
    pub fn next_row<X: Reading, R: Rows<X>>(
        &mut self,
        alloc: Global,
        rows: &mut R,
        x: &mut X,
    ) -> Result<Option<FoundRow>, SourceFault>
        ensures gives { X.tells x.old → IfOk result (λ row. GivesFound row (left_of self.old (R.left rows.old x.old).rows) (left_of self.new (R.left rows.new x.new).rows)) }
        ensures filter { self.new.filter ≡ self.old.filter }
        ensures pulls { self.old.rows_left ≡ Some 0 → (result ≡ Ok None) × (rows.new ≡ rows.old) × (x.new ≡ x.old) }
        ensures found { IfOk result (λ row. IfSome row IsFound) }
        ensures order { IfOk result (λ row. IfSome row (λ r. IfSome (R.key_at_hand rows.old) (λ before. slice_cmp nat_cmp before r.key ≡ Less) × (R.key_at_hand rows.new ≡ Some r.key))) }
        ensures same { X.same x.old x.new }
        ensures fault { IfErr result (IsCaused (X.tells x.new) (X.faults x.old) (X.faults x.new) (X.failing x.new) (X.broken x.new)) }
        ensures most { Falls result (R.most rows.old) (R.most rows.new) }
    {
        match self.rows_left {
            None => next_filled(alloc, &mut self.node, rows, x),
            Some(0) => Ok(None),
            Some(left) => {
                let row = next_filled(alloc, &mut self.node, rows, x)?;
                if row.is_some() {
                    self.rows_left = Some(left - 1);
                }
                Ok(row)
            }
        }
    }
}

// The next row of which the filter leaves cells.
fn next_filled<X: Reading, R: Rows<X>>(
    alloc: Global,
    node: &mut Node,
    rows: &mut R,
    x: &mut X,
) -> Result<Option<FoundRow>, SourceFault>
    ensures gives { X.tells x.old → IfOk result (λ row. GivesFound row (found node.old (R.left rows.old x.old).rows) (found node.old (R.left rows.new x.new).rows)) }
    ensures node { node.new ≡ node.old }
    ensures found { IfOk result (λ row. IfSome row IsFound) }
    ensures order { IfOk result (λ row. IfSome row (λ r. IfSome (R.key_at_hand rows.old) (λ before. slice_cmp nat_cmp before r.key ≡ Less) × (R.key_at_hand rows.new ≡ Some r.key))) }
    ensures same { X.same x.old x.new }
    ensures fault { IfErr result (IsCaused (X.tells x.new) (X.faults x.old) (X.faults x.new) (X.failing x.new) (X.broken x.new)) }
    ensures most { Falls result (R.most rows.old) (R.most rows.new) }
{
    while let Some(row) = next_filtered(alloc, node, rows, x)? {
        if !row.cells.is_empty() {
            return Ok(Some(row));
        }
    }
    Ok(None)
}

// The next row, with what the filter leaves of it.
fn next_filtered<X: Reading, R: Rows<X>>(
    alloc: Global,
    node: &mut Node,
    rows: &mut R,
    x: &mut X,
) -> Result<Option<FoundRow>, SourceFault>
    ensures gives { X.tells x.old → IfOk result (λ row. GivesFound row (map (found_row node.old) (R.left rows.old x.old).rows) (map (found_row node.old) (R.left rows.new x.new).rows)) }
    ensures node { node.new ≡ node.old }
    ensures read { IfOk result (λ row. IfSome row IsRead) }
    ensures order { IfOk result (λ row. IfSome row (λ r. IfSome (R.key_at_hand rows.old) (λ before. slice_cmp nat_cmp before r.key ≡ Less) × (R.key_at_hand rows.new ≡ Some r.key))) }
    ensures same { X.same x.old x.new }
    ensures fault { IfErr result (IsCaused (X.tells x.new) (X.faults x.old) (X.faults x.new) (X.failing x.new) (X.broken x.new)) }
    ensures most { Falls result (R.most rows.old) (R.most rows.new) }
{
    let Some(key) = rows.next_row(x)? else {
        return Ok(None);
    };
    let cells = filter_row(alloc, node, &key, rows, x)?;
    Ok(Some(FoundRow { key, cells }))
}
