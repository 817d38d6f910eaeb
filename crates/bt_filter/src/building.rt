//! Filters that are built from what was asked for, if nothing is against it.
ghost use Rattle.std.specs.Prelude.{◌≡◌, ◌<◌, ◌+◌, ◌^◌, length, map, option_map, take, IfOk, IfErr, IfSome};
ghost use Rattle.std.specs.List.{AllByRecursion};
ghost use Rattle.std.specs.Result.{IsErrAnd};
ghost use Rattle.bt_filter.specs.Building.{filter_of};
ghost use Rattle.bt_filter.specs.Flaws.{IsOutcome, IsValidFilter, IsRefusedFor, IsSurelyRead, IsFlawOrMemory, checks_of, first_flaw, node_list};
ghost use Rattle.bt_filter.specs.Flaws as spec;

use crate::extent::flaw_of_extent;
use crate::nodes::{
    boxed, chain, column_range, condition, family_pattern, flagged, interleave, label, number,
    pattern, pushed, sink, times, value_range,
};
use crate::{AskedFilter, Filter, FilterList, FilterRefusal};
use sqlite_items::{Boxed, Items};
use std::alloc::Global;

impl AskedFilter {
    /// Builds the filter, unless something is against it. Its size is checked first, and no more than
    /// 20 levels of it are looked at. A plain pattern is not refused as a pattern, and a pattern of at
    /// most 256 bytes without a `{` is not refused for its size.
    pub fn build(self, alloc: Global) -> Result<Filter, FilterRefusal>
        ensures valid { IfOk result (λ _. IsValidFilter self) }
        ensures built { IfOk result (λ filter. filter ≡ filter_of self) }
        ensures refused { IfErr result (IsRefusedFor self) }
        ensures complete { IfSome (first_flaw self) (λ flaw. AllByRecursion IsSurelyRead (take flaw.node (node_list self)) → IsErrAnd result (IsFlawOrMemory flaw)) }
    {
        if let Some(why) = flaw_of_extent(&self) {
            return Err(FilterRefusal::BadFilter { why, node: 0 });
        }
        let mut next = 0;
        let (built, _) = build_filter(alloc, &self, false, &mut next);
        built
    }
}

// Builds a filter, whose first node has the number `next`, and says whether it has a label. Where one
// of its parts is refused, the others are looked at all the same: two labels in a chain are against
// the chain, which comes before its parts.
#[cycle(build_filter)]
fn build_filter(
    alloc: Global,
    filter: &AskedFilter,
    below: bool,
    next: &mut u32,
) -> (Result<Filter, FilterRefusal>, bool)
    requires { next.old + length ((checks_of filter.now).nodes below) < 2 ^ 32 }
    ensures next { next.new ≡ next.old + length ((checks_of filter.now).nodes below) }
    ensures label { result.1 ≡ (checks_of filter.now).has_label }
    ensures built { IfOk result.0 (λ f. f ≡ filter_of filter.now) }
    ensures checked { IsOutcome result.0 next.old ((checks_of filter.now).nodes below) }
{
    let node = *next;
    *next = node + 1;
    match filter {
        AskedFilter::Unset => (Ok(Filter::Unset), false),
        AskedFilter::Pass(flag) => (flagged(*flag, Filter::Pass, node), false),
        AskedFilter::Block(flag) => (flagged(*flag, Filter::Block, node), false),
        AskedFilter::Sink(flag) => (sink(*flag, below, node), false),
        AskedFilter::Strip(flag) => (flagged(*flag, Filter::Strip, node), false),
        AskedFilter::Chain(parts) => {
            let (parts, labels) = build_all(alloc, parts.as_slice(), below, next);
            (chain(parts, labels, node), labels > 0)
        }
        AskedFilter::Interleave(parts) => {
            let (parts, labels) = build_all(alloc, parts.as_slice(), below, next);
            (interleave(parts), labels > 0)
        }
        AskedFilter::Condition {
            predicate,
            matched,
            unmatched,
        } => {
            let (predicate, has_first) = build_part(alloc, predicate, next);
            let (matched, has_second) = build_part(alloc, matched, next);
            let (unmatched, has_third) = build_part(alloc, unmatched, next);
            let has_label = has_first | has_second | has_third;
            (condition(predicate, matched, unmatched), has_label)
        }
        AskedFilter::RowKey(text) => (pattern(alloc, text, node).map(Filter::RowKey), false),
        AskedFilter::Family(text) => (family_pattern(alloc, text, node).map(Filter::Family), false),
        AskedFilter::Qualifier(text) => (pattern(alloc, text, node).map(Filter::Qualifier), false),
        AskedFilter::Value(text) => (pattern(alloc, text, node).map(Filter::Value), false),
        AskedFilter::ColumnRange { family, range } => (column_range(alloc, family, range), false),
        AskedFilter::ValueRange(range) => (value_range(alloc, range), false),
        AskedFilter::Times { start, end } => (times(*start, *end, node).map(Filter::Times), false),
        AskedFilter::RowOffset(count) => (number(*count, node).map(Filter::RowOffset), false),
        AskedFilter::RowLimit(count) => (number(*count, node).map(Filter::RowLimit), false),
        AskedFilter::ColumnLimit(count) => (number(*count, node).map(Filter::ColumnLimit), false),
        AskedFilter::Label(text) => (label(alloc, text, node).map(Filter::Label), true),
    }
}

#[cycle(build_filter)]
fn build_all(
    alloc: Global,
    filters: &[AskedFilter],
    below: bool,
    next: &mut u32,
) -> (Result<FilterList, FilterRefusal>, usize)
    requires { next.old + length (spec.nodes_of_all (map checks_of filters.now) below) < 2 ^ 32 }
    ensures next { next.new ≡ next.old + length (spec.nodes_of_all (map checks_of filters.now) below) }
    ensures labels { result.1 ≡ spec.label_count (map checks_of filters.now) }
    ensures built { IfOk result.0 (λ list. list ≡ map filter_of filters.now) }
    ensures checked { IsOutcome result.0 next.old (spec.nodes_of_all (map checks_of filters.now) below) }
{
    let mut list = Ok(Items::new(alloc));
    let mut labels = 0;
    for filter in filters {
        let (built, has_label) = build_filter(alloc, filter, below, next);
        list = pushed(list, built);
        labels += usize::from(has_label);
    }
    (list, labels)
}

#[cycle(build_filter)]
fn build_part(
    alloc: Global,
    part: &Option<Boxed<AskedFilter>>,
    next: &mut u32,
) -> (Result<Option<Boxed<Filter>>, FilterRefusal>, bool)
    requires { next.old + length (spec.nodes_of_part (option_map checks_of part.now)) < 2 ^ 32 }
    ensures next { next.new ≡ next.old + length (spec.nodes_of_part (option_map checks_of part.now)) }
    ensures label { result.1 ≡ spec.part_has_label (option_map checks_of part.now) }
    ensures built { IfOk result.0 (λ p. p ≡ option_map filter_of part.now) }
    ensures checked { IsOutcome result.0 next.old (spec.nodes_of_part (option_map checks_of part.now)) }
{
    match part {
        Some(filter) => {
            let (built, has_label) = build_filter(alloc, filter.get(), true, next);
            (boxed(alloc, built), has_label)
        }
        None => (Ok(None), false),
    }
}
