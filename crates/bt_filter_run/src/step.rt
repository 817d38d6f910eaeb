//! Filters as they run.
ghost use Rattle.std.specs.Prelude.{◌≡◌, IfOk, map, option_map};
ghost use Rattle.bt_types.specs.Cells.{AreInOrder};
ghost use Rattle.bt_filter.specs.Meaning.{branch_out, chain_gives, filter_meaning, interleave_gives, only, predicate_out};
ghost use Rattle.bt_filter_run.specs.Steps.{IsGiven, filter_of, is_any, part_of};

use crate::given::Given;
use crate::leaf::Leaf;
use crate::merging::merged;
use bt_base::{OutOfMemory, Plain};
use bt_types::{CellList, RowKey};
use std::alloc::Global;

/// A filter as it runs, with its parts (`google.bigtable.v2.RowFilter`).
#[derive(Drop)]
pub(crate) enum Step {
    Leaf(Leaf),
    Chain(Vec<Step>),
    Interleave(Vec<Step>),
    Condition {
        predicate: Option<Box<Step>>,
        matched: Option<Box<Step>>,
        unmatched: Option<Box<Step>>,
    },
}

/// What the step gives of the cells of the row with that key.
#[cycle(run)]
pub(crate) fn run(
    alloc: Global,
    step: &mut Step,
    key: &RowKey,
    cells: CellList,
) -> Result<Given, OutOfMemory>
    requires { AreInOrder cells }
    ensures given { IfOk result (λ given. IsGiven given (filter_meaning (filter_of step.old) key.now cells)) }
    ensures same { filter_of step.new ≡ filter_of step.old }
{
    match step {
        Step::Leaf(leaf) => leaf.run(alloc, key, cells),
        Step::Chain(steps) => run_chain(alloc, steps.as_mut_slice(), key, cells),
        Step::Interleave(steps) => run_interleave(alloc, steps.as_mut_slice(), key, cells),
        Step::Condition {
            predicate,
            matched,
            unmatched,
        } => {
            if gives_some(alloc, predicate, key, &cells)? {
                run_branch(alloc, matched, key, cells)
            } else {
                run_branch(alloc, unmatched, key, cells)
            }
        }
    }
}

// Each step on what the one before it gives. It is run by halves, so that cells that many steps sink
// are merged in few rounds.
#[cycle(run)]
fn run_chain(
    alloc: Global,
    steps: &mut [Step],
    key: &RowKey,
    cells: CellList,
) -> Result<Given, OutOfMemory>
    requires { AreInOrder cells }
    ensures given { IfOk result (λ given. IsGiven given (chain_gives (map filter_meaning (map filter_of steps.old)) key.now cells)) }
    ensures same { map filter_of steps.new ≡ map filter_of steps.old }
{
    if steps.is_empty() {
        return Ok(Given::only(alloc, cells));
    }
    if steps.len() == 1 {
        return run(alloc, &mut steps[0], key, cells);
    }
    let (front, back) = steps.split_at_mut(steps.len() / 2);
    let before = run_chain(alloc, front, key, cells)?;
    let after = run_chain(alloc, back, key, before.out)?;
    Ok(Given {
        out: after.out,
        sunk: merged(alloc, before.sunk, after.sunk)?,
    })
}

// Each step on the same cells. The last one gets them, and the others copies. By halves, as a chain.
#[cycle(run)]
fn run_interleave(
    alloc: Global,
    steps: &mut [Step],
    key: &RowKey,
    cells: CellList,
) -> Result<Given, OutOfMemory>
    requires { AreInOrder cells }
    ensures given { IfOk result (λ given. IsGiven given (interleave_gives (map filter_meaning (map filter_of steps.old)) key.now cells)) }
    ensures same { map filter_of steps.new ≡ map filter_of steps.old }
{
    if steps.is_empty() {
        return Ok(Given::none(alloc));
    }
    if steps.len() == 1 {
        return run(alloc, &mut steps[0], key, cells);
    }
    let (front, back) = steps.split_at_mut(steps.len() / 2);
    let copy = cells.copy(alloc)?;
    let one = run_interleave(alloc, front, key, copy)?;
    let other = run_interleave(alloc, back, key, cells)?;
    Ok(Given {
        out: merged(alloc, one.out, other.out)?,
        sunk: merged(alloc, one.sunk, other.sunk)?,
    })
}

// Whether the predicate gives a cell. A missing one passes all cells.
#[cycle(run)]
fn gives_some(
    alloc: Global,
    predicate: &mut Option<Box<Step>>,
    key: &RowKey,
    cells: &CellList,
) -> Result<bool, OutOfMemory>
    requires { AreInOrder cells.now }
    ensures answer { IfOk result (λ b. b ≡ is_any (predicate_out (option_map filter_meaning (part_of predicate.old)) key.now cells.now)) }
    ensures same { part_of predicate.new ≡ part_of predicate.old }
{
    let Some(step) = predicate else {
        return Ok(!cells.is_empty());
    };
    let copy = cells.copy(alloc)?;
    let given = run(alloc, step, key, copy)?;
    Ok(!given.out.is_empty())
}

// What a branch gives, but for sunk cells: there is no sink below a condition. A missing one gives none.
#[cycle(run)]
fn run_branch(
    alloc: Global,
    branch: &mut Option<Box<Step>>,
    key: &RowKey,
    cells: CellList,
) -> Result<Given, OutOfMemory>
    requires { AreInOrder cells }
    ensures given { IfOk result (λ given. IsGiven given (only (branch_out (option_map filter_meaning (part_of branch.old)) key.now cells))) }
    ensures same { part_of branch.new ≡ part_of branch.old }
{
    let Some(step) = branch else {
        return Ok(Given::none(alloc));
    };
    let given = run(alloc, step, key, cells)?;
    Ok(Given::only(alloc, given.out))
}
