//! What becomes of the families of a table.
ghost use Rattle.std.specs.Prelude.{◌≡◌, ◌&&◌, Ok, IfOk, IsTrue, OnOk, bytes_eq, map, not, true};
ghost use Rattle.std.specs.List.{list_any, position, slice_get};
ghost use Rattle.std.specs.Ordering.{is_le, nat_cmp};
ghost use Rattle.std.specs.Cmp.Lexicographic.{slice_cmp};
ghost use Rattle.std.specs.Result.{result_err};
ghost use Rattle.bt_plans.specs.NoPlans.{Refuses};
ghost use Rattle.bt_requests.specs.declared.families.FamilyChange.TheVariants.{Create, Update, Drop};
ghost use Rattle.bt_table_replies.specs.Families.{has_name, known_refusal, place_of};
ghost use Rattle.bt_table_replies.specs.Modifications.{after_change, after_changes, dropped, is_drop, with_family, without_family};

use crate::families::{MOST_FAMILIES, lawful_name, lawful_rule};
use bt_base::{OutOfMemory, Plain};
use bt_entry::TableInfo;
use bt_messages::Refusal;
use bt_plans::NoPlan;
use bt_requests::{FamilyChange, Modification, ModificationList};
use bt_rules::{Families, Family, Rule};
use bt_schema::is_family_of;
use bt_types::{FamilyList, FamilyName};
use std::alloc::Global;
use std::mem;

/// The names of the families of the table that one of the changes drops, in byte order.
pub(crate) fn dropped_names(
    alloc: Global,
    table: &TableInfo,
    changes: &[Modification],
) -> Result<FamilyList, OutOfMemory>
    ensures { IfOk result (λ names. names ≡ map (λ f. f.name) (dropped changes.now table.now)) }
{
    let mut names = FamilyList::new(alloc);
    for family in table.families.items() {
        if is_dropped(&family.name, changes) {
            names.push(family.name.copy(alloc)?)?;
        }
    }
    Ok(names)
}

fn is_dropped(family: &FamilyName, changes: &[Modification]) -> bool
    ensures { result ≡ list_any (λ m. is_drop m.change && bytes_eq m.id family.now) changes.now }
{
    changes.iter().any(|change| drops(change, family))
}

fn drops(change: &Modification, family: &FamilyName) -> bool
    ensures { result ≡ (is_drop change.now.change && bytes_eq change.now.id family.now) }
{
    matches!(&change.change, FamilyChange::Drop(true)) && change.id.bytes() == family.bytes()
}

/// The families change in order, each change seeing those before it. Where one is refused, those
/// before it have been made.
pub(crate) fn change_families(
    alloc: Global,
    families: &mut Families,
    changes: ModificationList,
) -> Result<(), NoPlan>
    ensures refusal { Refuses (result_err (after_changes changes families.old)) result }
    ensures families { OnOk result (after_changes changes families.old ≡ Ok families.new) }
{
    for change in changes.into_vec() {
        change_family(alloc, families, change)?;
    }
    Ok(())
}

fn change_family(alloc: Global, families: &mut Families, change: Modification) -> Result<(), NoPlan>
    ensures refusal { Refuses (result_err (after_change change.id change.change families.old)) result }
    ensures families { OnOk result (after_change change.id change.change families.old ≡ Ok families.new) }
{
    let Modification { id, change } = change;
    match change {
        FamilyChange::Missing => Err(NoPlan::Refused(Refusal::ModificationWithoutKind)),
        FamilyChange::Create(rule) => create_family(alloc, families, id.bytes(), rule),
        FamilyChange::Update(rule) => update_family(alloc, families, id.bytes(), rule),
        FamilyChange::Drop(true) => drop_family(alloc, families, id.bytes()),
        FamilyChange::Drop(false) => Err(NoPlan::Refused(Refusal::FlagNotTrue)),
    }
}

fn create_family(
    alloc: Global,
    families: &mut Families,
    name: &[u8],
    rule: Option<Rule>,
) -> Result<(), NoPlan>
    ensures refusal { Refuses (result_err (after_change name.now (Create rule) families.old)) result }
    ensures families { OnOk result (after_change name.now (Create rule) families.old ≡ Ok families.new) }
{
    let name = lawful_name(alloc, name)?;
    if is_family_of(families.items(), name.bytes()) {
        return Err(NoPlan::Refused(Refusal::FamilyExists));
    }
    let rule = lawful_rule(rule)?;
    if families.items().len() >= MOST_FAMILIES {
        return Err(NoPlan::Refused(Refusal::TooManyFamilies));
    }
    put_family(families, Family { name, rule })?;
    Ok(())
}

fn update_family(
    alloc: Global,
    families: &mut Families,
    name: &[u8],
    rule: Option<Rule>,
) -> Result<(), NoPlan>
    ensures refusal { Refuses (result_err (after_change name.now (Update rule) families.old)) result }
    ensures families { OnOk result (after_change name.now (Update rule) families.old ≡ Ok families.new) }
{
    let name = known_name(alloc, families.items(), name)?;
    let rule = lawful_rule(rule)?;
    put_family(families, Family { name, rule })?;
    Ok(())
}

fn drop_family(alloc: Global, families: &mut Families, name: &[u8]) -> Result<(), NoPlan>
    ensures refusal { Refuses (result_err (after_change name.now (Drop true) families.old)) result }
    ensures families { OnOk result (after_change name.now (Drop true) families.old ≡ Ok families.new) }
{
    let name = known_name(alloc, families.items(), name)?;
    let mut held = mem::replace(families, Families::new(alloc)).into_vec();
    remove_family(&mut held, &name);
    *families = Families::from_vec(held);
    Ok(())
}

// The name of a family that is there.
fn known_name(alloc: Global, families: &[Family], name: &[u8]) -> Result<FamilyName, NoPlan>
    ensures refusal { Refuses (known_refusal name.now families.now) result }
    ensures name { IfOk result (λ known. known ≡ name.now) }
{
    let name = lawful_name(alloc, name)?;
    if !is_family_of(families, name.bytes()) {
        return Err(NoPlan::Refused(Refusal::FamilyNotFound));
    }
    Ok(name)
}

fn remove_family(families: &mut Vec<Family>, name: &FamilyName)
    ensures { families.new.items ≡ without_family name.now families.old.items }
{
    families.retain(|family| is_other(family, name));
}

fn is_other(family: &Family, name: &FamilyName) -> bool
    ensures { result ≡ not (bytes_eq family.now.name name.now) }
{
    family.name.bytes() != name.bytes()
}

// The family stands in its place, and in place of the one of its name.
fn put_family(families: &mut Families, family: Family) -> Result<(), OutOfMemory>
    ensures { OnOk result (families.new ≡ with_family family families.old) }
{
    let place = place_of(families.items(), &family.name);
    if has_name(families.items(), place, &family.name) {
        families.set(place, family);
        return Ok(());
    }
    families.insert(place, family)
}

// The place of the first family whose name isn't below that one, or else past the last.
fn place_of(families: &[Family], name: &FamilyName) -> usize
    ensures { result ≡ place_of name.now families.now }
{
    first_upto(families, name).unwrap_or(families.len())
}

fn first_upto(families: &[Family], name: &FamilyName) -> Option<usize>
    ensures { result ≡ position (λ f. is_le (slice_cmp nat_cmp name.now f.name)) families.now }
{
    families.iter().position(|family| is_upto(name, family))
}

fn is_upto(name: &FamilyName, family: &Family) -> bool
    ensures { result ≡ is_le (slice_cmp nat_cmp name.now family.now.name) }
{
    name.bytes().cmp(family.name.bytes()).is_le()
}

fn has_name(families: &[Family], place: usize, name: &FamilyName) -> bool
    ensures { result ≡ has_name name.now (slice_get families.now place) }
{
    match families.get(place) {
        Some(family) => family.name.bytes() == name.bytes(),
        None => false,
    }
}
