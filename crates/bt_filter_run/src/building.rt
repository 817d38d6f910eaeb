//! Steps that are made of filters.
ghost use Rattle.std.specs.Prelude.{◌≡◌, IfOk, map};
ghost use Rattle.bt_filter_run.specs.Steps.{filter_of, part_of};

use crate::cell_test::CellTest;
use crate::leaf::Leaf;
use crate::step::Step;
use bt_base::OutOfMemory;
use bt_filter::{Filter, FilterList};
use sqlite_items::Boxed;
use std::alloc::Global;

/// The step that does what the filter says. All that the filter holds is moved.
#[cycle(step_of)]
pub(crate) fn step_of(alloc: Global, filter: Filter) -> Result<Step, OutOfMemory>
    ensures { IfOk result (λ step. filter_of step ≡ filter) }
{
    match filter {
        Filter::Unset => Ok(Step::Leaf(Leaf::Unset)),
        Filter::Pass => Ok(Step::Leaf(Leaf::Pass)),
        Filter::Block => Ok(Step::Leaf(Leaf::Block)),
        Filter::Sink => Ok(Step::Leaf(Leaf::Sink)),
        Filter::Strip => Ok(Step::Leaf(Leaf::Strip)),
        Filter::Chain(parts) => Ok(Step::Chain(steps_of(alloc, parts)?)),
        Filter::Interleave(parts) => Ok(Step::Interleave(steps_of(alloc, parts)?)),
        Filter::Condition {
            predicate,
            matched,
            unmatched,
        } => Ok(Step::Condition {
            predicate: branch_of(alloc, predicate)?,
            matched: branch_of(alloc, matched)?,
            unmatched: branch_of(alloc, unmatched)?,
        }),
        Filter::RowKey(pattern) => Ok(Step::Leaf(Leaf::RowKey(pattern))),
        Filter::Family(pattern) => Ok(Step::Leaf(Leaf::Cells(CellTest::Family(pattern)))),
        Filter::Qualifier(pattern) => Ok(Step::Leaf(Leaf::Cells(CellTest::Qualifier(pattern)))),
        Filter::Value(pattern) => Ok(Step::Leaf(Leaf::Cells(CellTest::Value(pattern)))),
        Filter::ColumnRange { family, range } => {
            Ok(Step::Leaf(Leaf::Cells(CellTest::Columns { family, range })))
        }
        Filter::ValueRange(range) => Ok(Step::Leaf(Leaf::Cells(CellTest::ValueRange(range)))),
        Filter::Times(range) => Ok(Step::Leaf(Leaf::Cells(CellTest::Times(range)))),
        Filter::RowOffset(count) => Ok(Step::Leaf(Leaf::RowOffset(count))),
        Filter::RowLimit(count) => Ok(Step::Leaf(Leaf::RowLimit(count))),
        Filter::ColumnLimit(count) => Ok(Step::Leaf(Leaf::ColumnLimit(count))),
        Filter::Label(label) => Ok(Step::Leaf(Leaf::Label(label))),
    }
}

#[cycle(step_of)]
fn steps_of(alloc: Global, filters: FilterList) -> Result<Vec<Step>, OutOfMemory>
    ensures { IfOk result (λ steps. map filter_of steps.items ≡ filters) }
{
    let mut filters = filters;
    let mut steps = Vec::with_capacity(alloc, filters.len())?;
    while let Some(filter) = filters.pop() {
        let step = step_of(alloc, filter)?;
        steps.push(step)?;
    }
    steps.reverse();
    Ok(steps)
}

#[cycle(step_of)]
fn branch_of(alloc: Global, branch: Option<Boxed<Filter>>) -> Result<Option<Box<Step>>, OutOfMemory>
    ensures { IfOk result (λ part. part_of part ≡ branch) }
{
    let Some(filter) = branch else {
        return Ok(None);
    };
    let step = step_of(alloc, filter.into_inner())?;
    Ok(Some(Box::new(alloc, step)?))
}
