//! The members of an object while it is read.
ghost use Rattle.std.specs.Prelude.{◌≡◌, OnOk, IfOk};
ghost use Rattle.std.specs.BTreeMap.{insert_entry};
ghost use Rattle.bt_json.specs.Names.{AreSorted, name_cmp};
ghost use Rattle.bt_json.specs.Refusals.{IsIllFormed};

use crate::reading::ReadRefusal;
use crate::value::{Members, Value};
use std::alloc::Global;
use std::cmp::Ordering;
use std::collections::BTreeMap;

/// The value goes to the place of its name, or in place of the value that is there. Names mostly come
/// in order, so the place is looked for from the end.
pub(crate) fn put<'t>(
    members: &mut Members<'t>,
    name: &'t str,
    value: Value<'t>,
) -> Result<(), ReadRefusal>
    requires sorted { AreSorted members.old.items }
    ensures entries { OnOk result (members.new.items ≡ insert_entry name_cmp members.old.items name.entry value.entry) }
    ensures formed { IsIllFormed result → ⊥ }
{
    let mut at = members.len();
    while at > 0 {
        match name.cmp(members[at - 1].0) {
            Ordering::Greater => break,
            Ordering::Equal => {
                members[at - 1].1 = value;
                return Ok(());
            }
            Ordering::Less => at -= 1,
        }
    }
    members.insert(at, (name, value))?;
    Ok(())
}

/// The same members as a map, where they become many.
pub(crate) fn to_map<'t>(
    alloc: Global,
    members: Members<'t>,
) -> Result<BTreeMap<&'t str, Value<'t>>, ReadRefusal>
    requires sorted { AreSorted members.items }
    ensures exact { IfOk result (λ m. m.entries ≡ members.entry.items) }
    ensures formed { IsIllFormed result → ⊥ }
{
    let mut map = BTreeMap::new(alloc);
    for (name, value) in members {
        drop(map.insert(name, value)?);
    }
    Ok(map)
}

/// The same members as a list.
pub(crate) fn from_map<'t>(
    alloc: Global,
    map: BTreeMap<&'t str, Value<'t>>,
) -> Result<Members<'t>, ReadRefusal>
    ensures exact { IfOk result (λ m. m.items ≡ map.entry.entries) }
    ensures formed { IsIllFormed result → ⊥ }
{
    let mut members = Vec::new(alloc);
    for (name, value) in map {
        members.push((name, value))?;
    }
    Ok(members)
}
