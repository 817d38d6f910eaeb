use super::*;
use bt_base::{Blob, Plain};
use bt_range::{Bound, ByteRange};
use sqlite_items::{Boxed, Items};
use std::alloc::Global;
use std::test::Fail;

fn text(alloc: Global, bytes: &[u8]) -> Result<Blob, Fail> {
    Ok(Blob::new(alloc, bytes)?)
}

fn label(alloc: Global, bytes: &[u8]) -> Result<AskedFilter, Fail> {
    Ok(AskedFilter::Label(text(alloc, bytes)?))
}

fn pair(alloc: Global, a: AskedFilter, b: AskedFilter) -> Result<AskedFilterList, Fail> {
    let mut list = Items::new(alloc);
    list.push(a)?;
    list.push(b)?;
    Ok(list)
}

fn condition(
    alloc: Global,
    predicate: AskedFilter,
    unmatched: AskedFilter,
) -> Result<AskedFilter, Fail> {
    Ok(AskedFilter::Condition {
        predicate: Some(Boxed::new(alloc, predicate)?),
        matched: None,
        unmatched: Some(Boxed::new(alloc, unmatched)?),
    })
}

// So many chains around a filter without parts.
fn nested(alloc: Global, chains: u32) -> Result<AskedFilter, Fail> {
    let mut filter = AskedFilter::Pass(true);
    for _ in 0..chains {
        let mut parts = Items::new(alloc);
        parts.push(filter)?;
        filter = AskedFilter::Chain(parts);
    }
    Ok(filter)
}

// So many filters by that pattern, side by side.
fn patterns(alloc: Global, count: u32, pattern: &[u8]) -> Result<AskedFilter, Fail> {
    let mut parts = Items::new(alloc);
    for _ in 0..count {
        parts.push(AskedFilter::Value(text(alloc, pattern)?))?;
    }
    Ok(AskedFilter::Interleave(parts))
}

fn refusal(alloc: Global, filter: AskedFilter) -> Result<(Why, u32), Fail> {
    match filter.build(alloc) {
        Err(FilterRefusal::BadFilter { why, node }) => Ok((why, node)),
        Err(refusal) => Err(refusal)?,
        Ok(_) => Err("accepted")?,
    }
}

#[test]
fn the_whole_filter_is_limited(rt: HostRuntime) -> Result<(), Fail> {
    let alloc = rt.alloc();
    assert!(rt; nested(alloc, 19)?.build(alloc).is_ok());
    assert_eq!(rt; refusal(alloc, nested(alloc, 20)?)?, (Why::TooDeep, 0));
    let many = patterns(alloc, 1_024, b"")?;
    assert_eq!(rt; refusal(alloc, many)?, (Why::TooMany, 0));
    let large = Blob::from_vec(vec![in alloc; b'a'; 20_481]?);
    assert_eq!(rt;
        refusal(alloc, AskedFilter::Label(large))?,
        (Why::TooLarge, 0)
    );
    assert!(rt; patterns(alloc, 16, b"a.")?.build(alloc).is_ok());
    assert!(rt; patterns(alloc, 17, b"a_b")?.build(alloc).is_ok());
    let patterns = patterns(alloc, 17, b"a.")?;
    assert_eq!(rt; refusal(alloc, patterns)?, (Why::TooManyPatterns, 0));
    Ok(())
}

#[test]
fn sinks_under_conditions_are_refused(rt: HostRuntime) -> Result<(), Fail> {
    let alloc = rt.alloc();
    let sunk = AskedFilter::Chain(pair(alloc, AskedFilter::Unset, AskedFilter::Sink(true))?);
    let predicate = condition(alloc, sunk, AskedFilter::Unset)?;
    assert_eq!(rt; refusal(alloc, predicate)?, (Why::SinkUnderCondition, 3));
    let branch = condition(alloc, AskedFilter::Unset, AskedFilter::Sink(false))?;
    assert_eq!(rt; refusal(alloc, branch)?, (Why::SinkUnderCondition, 2));
    assert!(rt; AskedFilter::Sink(true).build(alloc).is_ok());
    Ok(())
}

#[test]
fn labels_are_checked(rt: HostRuntime) -> Result<(), Fail> {
    let alloc = rt.alloc();
    assert_eq!(rt; refusal(alloc, label(alloc, b"Foo")?)?, (Why::BadLabel, 0));
    let inner = AskedFilter::Chain(pair(alloc, label(alloc, b"a")?, AskedFilter::Pass(false))?);
    let labels = AskedFilter::Chain(pair(alloc, inner, label(alloc, b"b")?)?);
    assert_eq!(rt; refusal(alloc, labels)?, (Why::TwoLabels, 0));
    let beside = pair(alloc, label(alloc, b"a")?, label(alloc, b"b")?)?;
    assert!(rt; AskedFilter::Interleave(beside).build(alloc).is_ok());
    Ok(())
}

#[test]
fn values_are_checked(rt: HostRuntime) -> Result<(), Fail> {
    let alloc = rt.alloc();
    let flag = pair(alloc, AskedFilter::Strip(true), AskedFilter::Block(false))?;
    assert_eq!(rt;
        refusal(alloc, AskedFilter::Chain(flag))?,
        (Why::FlagNotTrue, 2)
    );
    assert_eq!(rt;
        refusal(alloc, AskedFilter::RowLimit(-1))?,
        (Why::NegativeCount, 0)
    );
    let times = AskedFilter::Times { start: 0, end: -1 };
    assert_eq!(rt; refusal(alloc, times)?, (Why::BadTimeRange, 0));
    let family = AskedFilter::Family(text(alloc, b"f:q")?);
    assert_eq!(rt; refusal(alloc, family)?, (Why::BadPattern, 0));
    let bad = AskedFilter::RowKey(text(alloc, b"a)(b")?);
    assert_eq!(rt; refusal(alloc, bad)?, (Why::BadPattern, 0));
    let large = AskedFilter::Qualifier(text(alloc, b"(\\w{200}){200}")?);
    assert_eq!(rt; refusal(alloc, large)?, (Why::LargePattern, 0));
    Ok(())
}

// The columns of f past q.
fn columns(alloc: Global) -> Result<AskedFilter, Fail> {
    let start = Bound::Past(text(alloc, b"q")?);
    let end = Bound::Unset;
    Ok(AskedFilter::ColumnRange {
        family: text(alloc, b"f")?,
        range: ByteRange { start, end },
    })
}

fn printed(alloc: Global, filter: &AskedFilter) -> Result<String, Fail> {
    Ok(format!(in alloc; "{filter:?}")?)
}

#[test]
fn a_filter_is_copied(rt: HostRuntime) -> Result<(), Fail> {
    let alloc = rt.alloc();
    let filter = condition(alloc, columns(alloc)?, AskedFilter::RowOffset(7))?;
    let asked = printed(alloc, &filter)?;
    let copied = printed(alloc, &filter.copy(alloc)?)?;
    assert_eq!(rt; copied.as_str(), asked.as_str());
    Ok(())
}

#[test]
fn a_filter_is_built(rt: HostRuntime) -> Result<(), Fail> {
    let built = AskedFilter::RowOffset(7).build(rt.alloc())?;
    assert!(rt; matches!(built, Filter::RowOffset(7)));
    Ok(())
}
