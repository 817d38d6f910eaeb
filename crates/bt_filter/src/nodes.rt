//! The nodes of filters, each built if nothing is against it.
ghost use Rattle.std.specs.Prelude.{◌≡◌, ◌+◌, ◌++◌, ℕ, [], ◌∷◌, length, List, Option, IfOk};
ghost use Rattle.bt_filter.specs.declared.filter.Filter.{Filter};
ghost use Rattle.bt_filter.specs.Building.{number_of};
ghost use Rattle.bt_filter.specs.Flaws.{Check, Fine, Reads, IsOutcome};
ghost use Rattle.bt_filter.specs.Flaws as spec;

use crate::{Filter, FilterList, FilterRefusal, Why};
use bt_base::{Blob, Plain};
use bt_pattern::{Pattern, PatternRefusal};
use bt_range::{ByteRange, TimeRange};
use bt_types::Label;
use sqlite_items::Boxed;
use std::alloc::Global;
use std::str;

fn refused(why: Why, node: u32) -> FilterRefusal
    ensures { result ≡ FilterRefusal.BadFilter why node }
{
    FilterRefusal::BadFilter { why, node }
}

// ---- nodes without parts

pub(crate) fn flagged(flag: bool, filter: Filter, node: u32) -> Result<Filter, FilterRefusal>
    ensures built { IfOk result (λ f. f ≡ filter) }
    ensures checked { IsOutcome result node (spec.flag_check flag ∷ []) }
{
    if !flag {
        return Err(refused(Why::FlagNotTrue, node));
    }
    Ok(filter)
}

pub(crate) fn sink(flag: bool, below: bool, node: u32) -> Result<Filter, FilterRefusal>
    ensures built { IfOk result (λ f. f ≡ Filter.Sink) }
    ensures checked { IsOutcome result node (spec.sink_check below flag ∷ []) }
{
    if below {
        return Err(refused(Why::SinkUnderCondition, node));
    }
    flagged(flag, Filter::Sink, node)
}

pub(crate) fn pattern(alloc: Global, text: &Blob, node: u32) -> Result<Pattern, FilterRefusal>
    ensures built { IfOk result (λ p. p ≡ text.now) }
    ensures checked { IsOutcome result node (Reads text.now ∷ []) }
{
    match Pattern::read(alloc, text.bytes()) {
        Ok(pattern) => Ok(pattern),
        Err(PatternRefusal::BadPattern) => Err(refused(Why::BadPattern, node)),
        Err(PatternRefusal::LargePattern) => Err(refused(Why::LargePattern, node)),
        Err(PatternRefusal::OutOfMemory) => Err(FilterRefusal::OutOfMemory),
    }
}

pub(crate) fn family_pattern(
    alloc: Global,
    text: &Blob,
    node: u32,
) -> Result<Pattern, FilterRefusal>
    ensures built { IfOk result (λ p. p ≡ text.now) }
    ensures checked { IsOutcome result node (spec.family_check text.now ∷ []) }
{
    if text.bytes().contains(&b':') {
        return Err(refused(Why::BadPattern, node));
    }
    pattern(alloc, text, node)
}

pub(crate) fn column_range(
    alloc: Global,
    family: &Blob,
    range: &ByteRange,
) -> Result<Filter, FilterRefusal>
    ensures built { IfOk result (λ f. f ≡ Filter.ColumnRange family.now range.now) }
    ensures checked { (node : ℕ) → IsOutcome result node (Fine ∷ []) }
{
    Ok(Filter::ColumnRange {
        family: family.copy(alloc)?,
        range: range.copy(alloc)?,
    })
}

pub(crate) fn value_range(alloc: Global, range: &ByteRange) -> Result<Filter, FilterRefusal>
    ensures built { IfOk result (λ f. f ≡ Filter.ValueRange range.now) }
    ensures checked { (node : ℕ) → IsOutcome result node (Fine ∷ []) }
{
    Ok(Filter::ValueRange(range.copy(alloc)?))
}

pub(crate) fn times(start: i64, end: i64, node: u32) -> Result<TimeRange, FilterRefusal>
    ensures built { IfOk result (λ range. range ≡ record { start = number_of start; end = number_of end }) }
    ensures checked { IsOutcome result node (spec.times_check start end ∷ []) }
{
    if start < 0 || end < 0 {
        return Err(refused(Why::BadTimeRange, node));
    }
    Ok(TimeRange {
        start: start as u64,
        end: end as u64,
    })
}

pub(crate) fn number(count: i32, node: u32) -> Result<u32, FilterRefusal>
    ensures built { IfOk result (λ n. n ≡ number_of count) }
    ensures checked { IsOutcome result node (spec.count_check count ∷ []) }
{
    if count < 0 {
        return Err(refused(Why::NegativeCount, node));
    }
    Ok(count as u32)
}

pub(crate) fn label(alloc: Global, text: &Blob, node: u32) -> Result<Label, FilterRefusal>
    ensures built { IfOk result (λ l. l ≡ text.now) }
    ensures checked { IsOutcome result node (spec.label_check text.now ∷ []) }
{
    let Ok(written) = str::from_utf8(text.bytes()) else {
        return Err(refused(Why::BadLabel, node));
    };
    match Label::new(alloc, written)? {
        Some(label) => Ok(label),
        None => Err(refused(Why::BadLabel, node)),
    }
}

// ---- nodes above their parts

pub(crate) fn chain(
    parts: Result<FilterList, FilterRefusal>,
    labels: usize,
    node: u32,
) -> Result<Filter, FilterRefusal>
    ensures built { (list : List Filter) → IfOk parts (λ l. l ≡ list) → IfOk result (λ f. f ≡ Filter.Chain list) }
    ensures checked { (nodes : List Check) → IsOutcome parts (node + 1) nodes → IsOutcome result node (spec.chain_check labels ∷ nodes) }
{
    if labels > 1 {
        return Err(refused(Why::TwoLabels, node));
    }
    Ok(Filter::Chain(parts?))
}

pub(crate) fn interleave(parts: Result<FilterList, FilterRefusal>) -> Result<Filter, FilterRefusal>
    ensures built { (list : List Filter) → IfOk parts (λ l. l ≡ list) → IfOk result (λ f. f ≡ Filter.Interleave list) }
    ensures checked { (node : ℕ) (nodes : List Check) → IsOutcome parts (node + 1) nodes → IsOutcome result node (Fine ∷ nodes) }
{
    Ok(Filter::Interleave(parts?))
}

pub(crate) fn condition(
    predicate: Result<Option<Boxed<Filter>>, FilterRefusal>,
    matched: Result<Option<Boxed<Filter>>, FilterRefusal>,
    unmatched: Result<Option<Boxed<Filter>>, FilterRefusal>,
) -> Result<Filter, FilterRefusal>
    ensures built { (p m u : Option Filter) → IfOk predicate (λ x. x ≡ p) → IfOk matched (λ x. x ≡ m) → IfOk unmatched (λ x. x ≡ u)
        → IfOk result (λ f. f ≡ Filter.Condition p m u) }
    ensures checked { (node : ℕ) (a b c : List Check) → IsOutcome predicate (node + 1) a → IsOutcome matched (node + 1 + length a) b
        → IsOutcome unmatched (node + 1 + length a + length b) c → IsOutcome result node (Fine ∷ (a ++ b ++ c)) }
{
    Ok(Filter::Condition {
        predicate: predicate?,
        matched: matched?,
        unmatched: unmatched?,
    })
}

// ---- parts

pub(crate) fn pushed(
    list: Result<FilterList, FilterRefusal>,
    filter: Result<Filter, FilterRefusal>,
) -> Result<FilterList, FilterRefusal>
    ensures built { (before : List Filter) (last : Filter) → IfOk list (λ l. l ≡ before) → IfOk filter (λ f. f ≡ last)
        → IfOk result (λ l. l ≡ before ++ last ∷ []) }
    ensures checked { (node : ℕ) (a b : List Check) → IsOutcome list node a → IsOutcome filter (node + length a) b → IsOutcome result node (a ++ b) }
{
    let mut list = list?;
    list.push(filter?)?;
    Ok(list)
}

pub(crate) fn boxed(
    alloc: Global,
    filter: Result<Filter, FilterRefusal>,
) -> Result<Option<Boxed<Filter>>, FilterRefusal>
    ensures built { (f : Filter) → IfOk filter (λ g. g ≡ f) → IfOk result (λ p. p ≡ Some f) }
    ensures checked { (node : ℕ) (nodes : List Check) → IsOutcome filter node nodes → IsOutcome result node nodes }
{
    Ok(Some(Boxed::new(alloc, filter?)?))
}
