//! What filters give of a row.
ghost use Rattle.std.specs.Prelude.{◌≡◌, []};

use bt_types::CellList;
use std::alloc::Global;

/// The cells that a filter gives to the one behind it, and those that it sinks, which pass by all
/// filters behind it (`google.bigtable.v2.RowFilter.sink`).
#[derive(Drop)]
pub(crate) struct Given {
    pub(crate) out: CellList,
    pub(crate) sunk: CellList,
}

impl Given {
    /// These cells, and none sunk.
    pub(crate) fn only(alloc: Global, out: CellList) -> Given
        ensures { result ≡ record { out = out; sunk = [] } }
    {
        let sunk = CellList::new(alloc);
        Given { out, sunk }
    }

    /// These cells are sunk.
    pub(crate) fn sunk(alloc: Global, sunk: CellList) -> Given
        ensures { result ≡ record { out = []; sunk = sunk } }
    {
        let out = CellList::new(alloc);
        Given { out, sunk }
    }

    /// No cells.
    pub(crate) fn none(alloc: Global) -> Given
        ensures { result ≡ record { out = []; sunk = [] } }
    {
        Given::only(alloc, CellList::new(alloc))
    }
}
