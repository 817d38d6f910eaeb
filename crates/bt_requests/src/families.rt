//! Column families as they were read, and what is to become of them.
ghost use Rattle.std.specs.Prelude.{◌≡◌, IfOk};

use bt_base::{Blob, ListOf, OutOfMemory, Plain};
use bt_rules::Rule;
use std::alloc::Global;

/// A family as it was read (`google.bigtable.admin.v2.ColumnFamily`, and its key in the map). Its
/// rule is `None` where there is no `gcRule`, or one without a kind.
#[derive(Debug, Drop)]
pub struct AskedFamily {
    pub name: Blob,
    pub rule: Option<Rule>,
}

/// Families in byte order of their names.
pub type AskedFamilyList = ListOf<AskedFamily>;

impl Plain for AskedFamily {
    fn copy(&self, alloc: Global) -> Result<AskedFamily, OutOfMemory> {
        let name = self.name.copy(alloc)?;
        let rule = rule_copy(alloc, &self.rule)?;
        Ok(AskedFamily { name, rule })
    }
}

fn rule_copy(alloc: Global, rule: &Option<Rule>) -> Result<Option<Rule>, OutOfMemory>
    ensures { IfOk result (λ copy. copy ≡ rule.now) }
{
    match rule {
        Some(rule) => Ok(Some(rule.copy(alloc)?)),
        None => Ok(None),
    }
}

/// What is to become of one family
/// (`google.bigtable.admin.v2.ModifyColumnFamiliesRequest.Modification`).
#[derive(Debug, Drop)]
pub struct Modification {
    pub id: Blob,
    pub change: FamilyChange,
}

/// A change of a family. A rule is `None` where there is no `gcRule`, or one without a kind.
#[derive(Debug, Drop)]
pub enum FamilyChange {
    /// None of its kinds is set.
    Missing,
    /// A new family with that rule.
    Create(Option<Rule>),
    /// The family is to have that rule.
    Update(Option<Rule>),
    /// The family is to go, where it is true.
    Drop(bool),
}

/// Changes of families, in order.
pub type ModificationList = ListOf<Modification>;
