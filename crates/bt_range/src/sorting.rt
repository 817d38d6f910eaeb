//! Ranges in the order of their starts.
ghost use Rattle.std.specs.Prelude.{◌≡◌, IfOk, OnOk, filter};
ghost use Rattle.std.specs.List.Sorted.{IsPermutation};
ghost use Rattle.bt_range.specs.Bounds.{is_before};
ghost use Rattle.bt_range.specs.RowSets.{AreAscending, AreFilled, is_filled};

use crate::order::is_below;
use bt_base::OutOfMemory;
use bt_types::RowRange;

// Those that are not empty, in the order of their starts.
pub fn sorted(ranges: Vec<RowRange>) -> Result<Vec<RowRange>, OutOfMemory>
    ensures same { IfOk result (λ all. IsPermutation (filter is_filled ranges.items) all.items) }
    ensures filled { IfOk result (λ all. AreFilled all.items) }
    ensures ascending { IfOk result (λ all. AreAscending all.items) }
{
    let mut all = ranges;
    keep_filled(&mut all);
    sort(&mut all)?;
    Ok(all)
}

fn keep_filled(all: &mut Vec<RowRange>)
    ensures { all.new.items ≡ filter is_filled all.old.items }
{
    all.retain(|range| is_filled(range));
}

fn sort(all: &mut Vec<RowRange>) -> Result<(), OutOfMemory>
    ensures same { IsPermutation all.old.items all.new.items }
    ensures ascending { OnOk result (AreAscending all.new.items) }
{
    all.sort_by(|a, b| a.start.bytes().cmp(b.start.bytes()))?;
    Ok(())
}

// Whether the range holds its start.
pub fn is_filled(range: &RowRange) -> bool
    ensures { result ≡ is_filled range.now }
{
    is_before(range, range.start.bytes())
}

// Whether the bytes are before the end.
pub fn is_before(range: &RowRange, bytes: &[u8]) -> bool
    ensures { result ≡ is_before range.now.end bytes.now }
{
    match &range.end {
        Some(end) => is_below(bytes, end.bytes()),
        None => true,
    }
}
