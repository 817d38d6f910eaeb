//! The name of a table.
ghost use Rattle.std.specs.Prelude.{◌≡◌, IsTrue, IfOk, nat_eq, refl};
ghost use Rattle.std.specs.Ordering.{nat_cmp, as_partial_cmp};
ghost use Rattle.std.specs.Cmp.Lexicographic.{pointwise, slice_cmp};
ghost use Rattle.std.specs.Cmp.{partial_order_from_own_ties};
ghost use Rattle.std.specs.Cmp.Rules.{comparing};
ghost use Rattle.std.proofs.Common.{rules};
ghost use Rattle.bt_types.specs.Grammar.{lawful, is_table_name, table_in};

use crate::bytes_of_names::{is_parent, is_table, is_table_id};
use bt_base::{OutOfMemory, Plain};
use std::alloc::Global;
use std::cmp::Ordering;
use std::marker::Model;
use std::str;

/// The name of a table, `projects/P/instances/I/tables/T`
/// (`google.bigtable.admin.v2.Table.name`). P and I are 1 to 100 characters of
/// `[-_.:a-zA-Z0-9]`; T is 1 to 50 of `[-_.a-zA-Z0-9]`, the first one of `[_a-zA-Z0-9]`.
/// A contract sees its bytes, and names are ordered by them.
#[derive(Debug, Drop)]
pub struct TableName {
    held: String,
}

impl Model for TableName {
    ghost use Rattle.std.specs.Prelude.{List, ℕ, IsTrue, string_bytes};
    ghost use Rattle.bt_types.specs.Grammar.{is_table_name};

    ghost Value = { List ℕ };

    ghost view = { λ n. string_bytes n.held };

    ghost invariant = { λ n. IsTrue (is_table_name (string_bytes n.held)) };
}

impl TableName {
    /// The name that the text is, or `None` where it is none.
    pub fn new(alloc: Global, text: &str) -> Result<Option<TableName>, OutOfMemory>
        ensures { IfOk result (λ name. name ≡ lawful is_table_name text.now) }
    {
        if !is_table(text.as_bytes()) {
            return Ok(None);
        }
        let held = String::from_str(alloc, text)?;
        Ok(Some(TableName { held }))
    }

    /// The table of that id in the instance `projects/P/instances/I`, or `None` where the parent
    /// or the id is outside its grammar.
    pub fn in_instance(
        alloc: Global,
        parent: &str,
        id: &str,
    ) -> Result<Option<TableName>, OutOfMemory>
        ensures { IfOk result (λ name. name ≡ table_in parent.now id.now) }
    {
        if !is_parent(parent.as_bytes()) || !is_table_id(id.as_bytes()) {
            return Ok(None);
        }
        let mut name = String::from_str(alloc, parent)?;
        name.push_str("/tables/")?;
        name.push_str(id)?;
        TableName::new(alloc, name.as_str())
    }

    /// The name that the bytes are, or `None` where they are none. A name is ASCII, so what is no
    /// UTF-8 is none.
    #[tactic(auto, using(crate::proofs::LawfulNames::is_no_table))]
    pub fn from_bytes(alloc: Global, bytes: &[u8]) -> Result<Option<TableName>, OutOfMemory>
        ensures { IfOk result (λ name. name ≡ lawful is_table_name bytes.now) }
    {
        match str::from_utf8(bytes) {
            Ok(text) => TableName::new(alloc, text),
            Err(_) => Ok(None),
        }
    }

    pub fn bytes(&self) -> &[u8]
        ensures value { result.now ≡ self.now }
        ensures lawful { IsTrue (is_table_name self.now) }
    {
        self.held.as_bytes()
    }

    pub fn text(&self) -> &str
        ensures { result.now ≡ self.now }
    {
        self.held.as_str()
    }
}

impl Plain for TableName {
    fn copy(&self, alloc: Global) -> Result<TableName, OutOfMemory> {
        let held = String::from_str(alloc, self.held.as_str())?;
        Ok(TableName { held })
    }
}

impl PartialEq for TableName {
    ghost eq = { pointwise nat_eq };

    ghost laws = { Prim.search (comparing, rules) };

    fn eq(&self, other: &TableName) -> bool {
        self.held == other.held
    }
}

impl Eq for TableName {
    ghost laws = { Prim.search (comparing, rules) };
}

impl PartialOrd for TableName {
    ghost partial_cmp = { as_partial_cmp (slice_cmp nat_cmp) };

    ghost laws = { partial_order_from_own_ties (Prim.search (comparing, rules)) (Prim.search (comparing, rules)) };

    fn partial_cmp(&self, other: &TableName) -> Option<Ordering> {
        Some(self.cmp(other))
    }
}

impl Ord for TableName {
    ghost cmp = { slice_cmp nat_cmp };

    ghost total = { Prim.search (comparing, rules) };

    ghost matches_partial_cmp = { λ x y. refl };

    ghost matches_eq = { Prim.search (comparing, rules) };

    fn cmp(&self, other: &TableName) -> Ordering {
        self.held.cmp(&other.held)
    }
}
