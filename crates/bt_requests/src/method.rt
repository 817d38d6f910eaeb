//! The methods.

/// A method of the services `google.bigtable.v2.Bigtable` and
/// `google.bigtable.admin.v2.BigtableTableAdmin`, or this project's own `CompactTable`.
#[derive(Clone, Copy, Debug, PartialEq, Eq)]
pub enum Method {
    CreateTable,
    GetTable,
    ListTables,
    DeleteTable,
    UpdateTable,
    ModifyColumnFamilies,
    DropRowRange,
    CompactTable,
    ReadRows,
    MutateRow,
    MutateRows,
    CheckAndMutateRow,
    ReadModifyWriteRow,
    GenerateInitialChangeStreamPartitions,
    ReadChangeStream,
}

impl Method {
    ghost use Rattle.std.specs.Prelude.{◌≡◌};
    ghost use Rattle.bt_requests.specs.Methods.{method_named};

    /// The method of that name, or `None` where there is none.
    pub fn named(name: &str) -> Option<Method>
        ensures { result ≡ method_named name.now }
    {
        match name {
            "CreateTable" => Some(Method::CreateTable),
            "GetTable" => Some(Method::GetTable),
            "ListTables" => Some(Method::ListTables),
            "DeleteTable" => Some(Method::DeleteTable),
            "UpdateTable" => Some(Method::UpdateTable),
            "ModifyColumnFamilies" => Some(Method::ModifyColumnFamilies),
            "DropRowRange" => Some(Method::DropRowRange),
            "CompactTable" => Some(Method::CompactTable),
            "ReadRows" => Some(Method::ReadRows),
            "MutateRow" => Some(Method::MutateRow),
            "MutateRows" => Some(Method::MutateRows),
            "CheckAndMutateRow" => Some(Method::CheckAndMutateRow),
            "ReadModifyWriteRow" => Some(Method::ReadModifyWriteRow),
            "GenerateInitialChangeStreamPartitions" => {
                Some(Method::GenerateInitialChangeStreamPartitions)
            }
            "ReadChangeStream" => Some(Method::ReadChangeStream),
            _ => None,
        }
    }
}
