//! A read, before its rows are looked at.
use bt_filter_run::Node;
use bt_range::RowSet;

/// What a read gives: of the table of that incarnation the rows of the set, each with the cells that
/// the filter leaves, and of those that have cells left as many as the limit lets; 0 is no limit.
#[derive(Drop)]
pub struct ReadPlan {
    pub incarnation: u64,
    pub rows: RowSet,
    pub node: Node,
    pub rows_limit: u64,
}
