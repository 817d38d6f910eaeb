//! How large filters may be.
ghost use Rattle.std.specs.Prelude.{◌≡◌, ◌+◌, min, map, option_map, length};
ghost use Rattle.bt_base.specs.Counts.{most};
ghost use Rattle.bt_filter.specs.Counting.{counts_with, counts_within};
ghost use Rattle.bt_filter.specs.Flaws as spec;

use crate::{AskedFilter, Why};
use bt_pattern::is_plain;
use bt_range::{Bound, ByteRange};
use sqlite_items::Boxed;

const MOST_LEVELS: usize = 20;

const MOST_NODES: usize = 1_024;

const MOST_BYTES: usize = 20_480;

const MOST_PATTERNS: usize = 16;

/// What is against the whole filter. No more than 20 levels of it are looked at.
pub(crate) fn flaw_of_extent(filter: &AskedFilter) -> Option<Why>
    ensures { result ≡ spec.extent_flaw (spec.extent_of filter.now) }
{
    let none = Counts {
        nodes: 0,
        bytes: 0,
        patterns: 0,
    };
    match count_filter(filter, MOST_LEVELS, none) {
        None => Some(Why::TooDeep),
        Some(counts) => counts.flaw(),
    }
}

/// How many nodes, bytes and patterns that are not plain there are, each at most the greatest number.
#[derive(Clone, Copy)]
struct Counts {
    nodes: usize,
    bytes: usize,
    patterns: usize,
}

impl Counts {
    fn flaw(self) -> Option<Why>
        ensures { result ≡ spec.extent_flaw (record { depth = 0; nodes = self.nodes; bytes = self.bytes; patterns = self.patterns }) }
    {
        if self.nodes > MOST_NODES {
            return Some(Why::TooMany);
        }
        if self.bytes > MOST_BYTES {
            return Some(Why::TooLarge);
        }
        if self.patterns > MOST_PATTERNS {
            return Some(Why::TooManyPatterns);
        }
        None
    }

    fn with_node(self) -> Counts
        ensures { result ≡ record self { nodes = min (self.nodes + 1) most } }
    {
        let nodes = self.nodes.saturating_add(1);
        Counts { nodes, ..self }
    }

    fn with_bytes(self, bytes: &[u8]) -> Counts
        ensures { result ≡ record self { bytes = min (self.bytes + length bytes.now) most } }
    {
        let bytes = self.bytes.saturating_add(bytes.len());
        Counts { bytes, ..self }
    }

    fn with_bound(self, bound: &Bound) -> Counts
        ensures { result ≡ record self { bytes = min (self.bytes + spec.bound_bytes bound.now) most } }
    {
        match bound {
            Bound::Unset => self,
            Bound::Closed(bytes) => self.with_bytes(bytes.bytes()),
            Bound::Past(bytes) => self.with_bytes(bytes.bytes()),
        }
    }

    fn with_range(self, range: &ByteRange) -> Counts
        ensures { result ≡ record self { bytes = min (self.bytes + spec.range_bytes range.now) most } }
    {
        self.with_bound(&range.start).with_bound(&range.end)
    }

    fn with_pattern(self, text: &[u8]) -> Counts
        ensures { result ≡ counts_with self (spec.extent_of_pattern text.now) }
    {
        let counts = self.with_node().with_bytes(text);
        if is_plain(text) {
            return counts;
        }
        let patterns = counts.patterns.saturating_add(1);
        Counts { patterns, ..counts }
    }
}

// With the nodes of a filter, or `None` where it is more than so many levels deep.
#[cycle(count_filter)]
fn count_filter(filter: &AskedFilter, levels: usize, before: Counts) -> Option<Counts>
    ensures { result ≡ counts_within levels before (spec.extent_of filter.now) }
{
    if levels == 0 {
        return None;
    }
    let counts = before.with_node();
    match filter {
        AskedFilter::Chain(parts) | AskedFilter::Interleave(parts) => {
            count_all(parts.as_slice(), levels - 1, counts)
        }
        AskedFilter::Condition {
            predicate,
            matched,
            unmatched,
        } => {
            let counts = count_part(predicate, levels - 1, counts)?;
            let counts = count_part(matched, levels - 1, counts)?;
            count_part(unmatched, levels - 1, counts)
        }
        AskedFilter::RowKey(text)
        | AskedFilter::Family(text)
        | AskedFilter::Qualifier(text)
        | AskedFilter::Value(text) => Some(before.with_pattern(text.bytes())),
        AskedFilter::ColumnRange { family, range } => {
            Some(counts.with_bytes(family.bytes()).with_range(range))
        }
        AskedFilter::ValueRange(range) => Some(counts.with_range(range)),
        AskedFilter::Label(label) => Some(counts.with_bytes(label.bytes())),
        AskedFilter::Unset
        | AskedFilter::Pass(_)
        | AskedFilter::Block(_)
        | AskedFilter::Sink(_)
        | AskedFilter::Strip(_)
        | AskedFilter::Times { .. }
        | AskedFilter::RowOffset(_)
        | AskedFilter::RowLimit(_)
        | AskedFilter::ColumnLimit(_) => Some(counts),
    }
}

#[cycle(count_filter)]
fn count_all(filters: &[AskedFilter], levels: usize, before: Counts) -> Option<Counts>
    ensures { result ≡ counts_within levels before (spec.extent_of_all (map spec.extent_of filters.now)) }
{
    let mut counts = before;
    for filter in filters {
        counts = count_filter(filter, levels, counts)?;
    }
    Some(counts)
}

#[cycle(count_filter)]
fn count_part(part: &Option<Boxed<AskedFilter>>, levels: usize, before: Counts) -> Option<Counts>
    ensures { result ≡ counts_within levels before (spec.extent_of_part (option_map spec.extent_of part.now)) }
{
    match part {
        Some(filter) => count_filter(filter.get(), levels, before),
        None => Some(before),
    }
}
