//! Ranges that touch, merged.
ghost use Rattle.std.specs.Prelude.{◌≡◌, ◌||◌, ℕ, List, true, false, IfOk, OnOk, not};
ghost use Rattle.bt_range.specs.Bounds.{is_below, is_in};
ghost use Rattle.bt_range.specs.RowSets.{AreApart, AreAscending, AreFilled, StartBy, is_filled, is_in_any, joined, later_end, stops_before};

use crate::order::is_below;
use bt_base::{Blob, OutOfMemory};
use bt_types::RowRange;
use std::alloc::Global;

// The same keys in ranges that stand apart.
pub fn merged(alloc: Global, ranges: Vec<RowRange>) -> Result<Vec<RowRange>, OutOfMemory>
    requires filled { AreFilled ranges.items }
    requires ascending { AreAscending ranges.items }
    ensures apart { IfOk result (λ done. AreApart done.items) }
    ensures same { IfOk result (λ done. (k : List ℕ) → is_in_any done.items k ≡ is_in_any ranges.items k) }
{
    let mut done = Vec::new(alloc);
    for range in ranges {
        add(&mut done, range)?;
    }
    Ok(done)
}

// One more range, which starts no sooner than the others: it is joined to the last where they
// touch.
fn add(done: &mut Vec<RowRange>, range: RowRange) -> Result<(), OutOfMemory>
    requires apart { AreApart done.old.items }
    requires starts { StartBy range.start done.old.items }
    requires filled { is_filled range ≡ true }
    ensures apart { OnOk result (AreApart done.new.items) }
    ensures same { OnOk result ((k : List ℕ) → is_in_any done.new.items k ≡ (is_in_any done.old.items k || is_in range k)) }
    ensures starts { OnOk result ((k : List ℕ) → is_below k range.start ≡ false → StartBy k done.new.items) }
{
    let Some(last) = done.pop() else {
        done.push(range)?;
        return Ok(());
    };
    if touches(&last, &range) {
        done.push(joined(last, range))?;
        return Ok(());
    }
    done.push(last)?;
    done.push(range)?;
    Ok(())
}

// Whether there is no gap between the first and the second, which starts no sooner.
fn touches(first: &RowRange, second: &RowRange) -> bool
    ensures { result ≡ not (stops_before first.now.end second.now.start) }
{
    match &first.end {
        Some(end) => !is_below(end.bytes(), second.start.bytes()),
        None => true,
    }
}

// The range of what either of two that touch has.
fn joined(first: RowRange, second: RowRange) -> RowRange
    ensures { result ≡ joined first second }
{
    RowRange {
        start: first.start,
        end: later_end(first.end, second.end),
    }
}

fn later_end(one: Option<Blob>, other: Option<Blob>) -> Option<Blob>
    ensures { result ≡ later_end one other }
{
    let (Some(one), Some(other)) = (one, other) else {
        return None;
    };
    if is_below(one.bytes(), other.bytes()) {
        return Some(other);
    }
    Some(one)
}
