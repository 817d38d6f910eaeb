//! The walk.
ghost use Rattle.std.specs.Prelude.{◌≡◌, None, map, option_map};
ghost use Rattle.bt_json.specs.View.{view, items_view, members_view};
ghost use Rattle.bt_walk.specs.Shapes.{seen};
ghost use Rattle.bt_walk.specs.Faults.{fault_at, name_of};
ghost use Rattle.bt_walk.specs.Walk.{fault, items_fault, entries_fault, members_fault, member_fault};
ghost use Rattle.bt_walk.specs.declared.found.Pass.TheVariants.{ForUnsupported, ForBad};

use crate::found::{Faults, first, name_of, within};
use crate::leaf::bad_leaf;
use crate::member::{is_absent, is_too_many, is_unsupported};
use crate::shape::{Many, Member, Schema, Shape, named};
use bt_json::{Members, Value};

/// The first faults of a value of that shape, in preorder: the members of an object in byte order of
/// their JSON names (an unknown one by its own), the items of an array by index. Each is told by the
/// JSON name of the innermost member at fault, by the unknown name as it stands there, or by
/// `name`, which is that of the value itself; an item of an array has its array's name.
/// It goes over the value once for both, and takes no memory.
#[cycle(walk)]
pub fn faults<'v, S: Schema>(
    schema: &S,
    many: Many,
    shape: Shape,
    name: &'v str,
    value: &'v Value<'_>,
) -> Faults<'v>
    ensures unsupported { option_map (λ n. n.now) result.unsupported
        ≡ fault (S.Schema.table schema.now) ForUnsupported many shape name.now (view value.now) }
    ensures bad { option_map (λ n. n.now) result.bad
        ≡ fault (S.Schema.table schema.now) ForBad many shape name.now (view value.now) }
{
    match (many, shape, value) {
        (Many::List, _, Value::Array(items)) => items_faults(schema, shape, name, items),
        (Many::Map, _, Value::Object(entries)) => entries_faults(schema, shape, name, entries),
        (Many::One, Shape::Of(message), Value::Object(entries)) => {
            let members = schema.members(message);
            members_faults(schema, members, entries, value)
        }
        _ => Faults {
            unsupported: None,
            bad: bad_leaf(schema, many, shape, name, value),
        },
    }
}

#[cycle(walk)]
fn items_faults<'v, S: Schema>(
    schema: &S,
    shape: Shape,
    name: &'v str,
    items: &'v Vec<Value<'_>>,
) -> Faults<'v>
    ensures unsupported { option_map (λ n. n.now) result.unsupported
        ≡ items_fault (S.Schema.table schema.now) ForUnsupported shape name.now
        (items_view items.now.items) }
    ensures bad { option_map (λ n. n.now) result.bad
        ≡ items_fault (S.Schema.table schema.now) ForBad shape name.now
        (items_view items.now.items) }
{
    let mut unsupported = None;
    let mut bad = None;
    for item in items {
        let here = faults(schema, Many::One, shape, name, item);
        unsupported = unsupported.or(here.unsupported);
        bad = bad.or(here.bad);
    }
    Faults { unsupported, bad }
}

// The values of a map, where null is absent.
#[cycle(walk)]
fn entries_faults<'v, S: Schema>(
    schema: &S,
    shape: Shape,
    name: &'v str,
    entries: &'v Members<'_>,
) -> Faults<'v>
    ensures unsupported { option_map (λ n. n.now) result.unsupported
        ≡ entries_fault (S.Schema.table schema.now) ForUnsupported shape name.now
        (members_view entries.now.items) }
    ensures bad { option_map (λ n. n.now) result.bad
        ≡ entries_fault (S.Schema.table schema.now) ForBad shape name.now
        (members_view entries.now.items) }
{
    let mut unsupported = None;
    let mut bad = None;
    for (_key, value) in entries.iter() {
        if value.is_null() {
            continue;
        }
        let here = faults(schema, Many::One, shape, name, value);
        unsupported = unsupported.or(here.unsupported);
        bad = bad.or(here.bad);
    }
    Faults { unsupported, bad }
}

#[cycle(walk)]
fn members_faults<'v, S: Schema>(
    schema: &S,
    members: &'static [Member],
    entries: &'v Members<'_>,
    whole: &'v Value<'_>,
) -> Faults<'v>
    ensures unsupported { option_map (λ n. n.now) result.unsupported
        ≡ name_of (members_fault (S.Schema.table schema.now) ForUnsupported (map seen members.now)
        (view whole.now) None (members_view entries.now.items)) }
    ensures bad { option_map (λ n. n.now) result.bad
        ≡ name_of (members_fault (S.Schema.table schema.now) ForBad (map seen members.now)
        (view whole.now) None (members_view entries.now.items)) }
{
    let mut unsupported = None;
    let mut bad = None;
    for (key, value) in entries.iter() {
        let (place, here) = member_faults(schema, members, *key, value, whole);
        unsupported = first(unsupported, within(place, here.unsupported));
        bad = first(bad, within(place, here.bad));
    }
    Faults {
        unsupported: name_of(unsupported),
        bad: name_of(bad),
    }
}

// The place of a member, and its faults.
#[cycle(walk)]
fn member_faults<'v, S: Schema>(
    schema: &S,
    members: &'static [Member],
    key: &'v str,
    value: &'v Value<'_>,
    whole: &'v Value<'_>,
) -> (&'v str, Faults<'v>)
    ensures unsupported { option_map (λ n. fault_at result.0.now n.now) result.1.unsupported
        ≡ member_fault (S.Schema.table schema.now) ForUnsupported (map seen members.now)
        (view whole.now) key.now (view value.now) }
    ensures bad { option_map (λ n. fault_at result.0.now n.now) result.1.bad
        ≡ member_fault (S.Schema.table schema.now) ForBad (map seen members.now)
        (view whole.now) key.now (view value.now) }
{
    let Some(member) = named(members, key) else {
        let unknown = Faults {
            unsupported: None,
            bad: Some(key),
        };
        return (key, unknown);
    };
    let name = member.name.0;
    if is_absent(member.support, value) {
        let none = Faults {
            unsupported: None,
            bad: None,
        };
        return (name, none);
    }
    let inner = faults(schema, member.many, member.shape, name, value);
    let here = Faults {
        unsupported: if is_unsupported(schema, member, value) {
            Some(name)
        } else {
            inner.unsupported
        },
        bad: if is_too_many(whole, members, member) {
            Some(name)
        } else {
            inner.bad
        },
    };
    (name, here)
}
