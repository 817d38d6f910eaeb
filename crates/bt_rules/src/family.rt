//! The column families of a table.
ghost use Rattle.std.specs.Prelude.{◌≡◌, IfOk};

use crate::Rule;
use bt_base::{ListOf, OutOfMemory, Plain};
use bt_types::FamilyName;
use std::alloc::Global;

/// A column family of a table (`google.bigtable.admin.v2.ColumnFamily`). Without a rule no cell of
/// it is ever condemned.
#[derive(Debug, Drop)]
pub struct Family {
    pub name: FamilyName,
    pub rule: Option<Rule>,
}

/// Families of a table, names ascending.
pub type Families = ListOf<Family>;

impl Plain for Family {
    fn copy(&self, alloc: Global) -> Result<Family, OutOfMemory> {
        let name = self.name.copy(alloc)?;
        let rule = rule_copy(alloc, &self.rule)?;
        Ok(Family { name, rule })
    }
}

fn rule_copy(alloc: Global, rule: &Option<Rule>) -> Result<Option<Rule>, OutOfMemory>
    ensures { IfOk result (λ copy. copy ≡ rule.now) }
{
    match rule {
        Some(rule) => Ok(Some(rule.copy(alloc)?)),
        None => Ok(None),
    }
}
