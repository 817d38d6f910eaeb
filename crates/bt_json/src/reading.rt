//! Reading a text.
ghost use Rattle.std.specs.Prelude.{◌≡◌, ◌<◌, ◌≤◌, ℕ, None, Some, IfOk, OnOk, length, option_map};
ghost use Rattle.json.specs.Json.{items, members, value};
ghost use Rattle.serde_json.specs.Data.{no_members};
ghost use Rattle.serde_json.specs.Read.{converted, of_items, of_json, of_members, read};
ghost use Rattle.bt_json.specs.Refusals.{IsIllFormed};
ghost use Rattle.bt_json.specs.View.{items_view, members_view, view};

use crate::gathering::{from_map, put, to_map};
use crate::number::Number;
use crate::value::{Members, Value};
use json::{Invalid, Reader, Scratch, Token};
use std::alloc::{AllocError, AllocFailed, Global};
use std::collections::BTreeMap;

// Arrays and objects nest no deeper.
const MOST_LEVELS: usize = 127;

// An object with more members is gathered in a map, since in a list each may move all others.
const MOST_IN_LIST: usize = 32;

/// Why a text is not read.
#[derive(Clone, Copy, Debug, PartialEq, Eq)]
pub enum ReadRefusal {
    /// It is no JSON text, it nests deeper than 127, or a number of it is beyond the floats.
    IllFormed,
    OutOfMemory,
}

impl From<AllocError> for ReadRefusal {
    ghost use Rattle.std.specs.Prelude.{◌≡◌};
    ghost use Rattle.bt_json.specs.declared.reading.ReadRefusal.TheVariants as refusal;

    ghost from_gives = { λ _ e. e ≡ refusal.OutOfMemory };

    fn from(_: AllocError) -> ReadRefusal {
        ReadRefusal::OutOfMemory
    }
}

impl<T: Drop> From<AllocFailed<T>> for ReadRefusal {
    ghost use Rattle.std.specs.Prelude.{◌≡◌};
    ghost use Rattle.bt_json.specs.declared.reading.ReadRefusal.TheVariants as refusal;

    ghost from_gives = { λ _ e. e ≡ refusal.OutOfMemory };

    fn from(_: AllocFailed<T>) -> ReadRefusal {
        ReadRefusal::OutOfMemory
    }
}

impl From<Invalid> for ReadRefusal {
    ghost use Rattle.std.specs.Prelude.{◌≡◌};
    ghost use Rattle.bt_json.specs.declared.reading.ReadRefusal.TheVariants as refusal;

    ghost from_gives = { λ _ e. e ≡ refusal.IllFormed };

    fn from(_: Invalid) -> ReadRefusal {
        ReadRefusal::IllFormed
    }
}

/// The value of a text, as the crate serde_json reads it.
pub fn read<'t>(
    alloc: Global,
    text: &'t str,
    scratch: &'t mut Scratch,
) -> Result<Value<'t>, ReadRefusal>
    ensures ok { IfOk result (λ v. read text.now ≡ Some (view v)) }
    ensures ill_formed { IsIllFormed result → read text.now ≡ None }
{
    let mut reader = Reader::new(text, scratch)?;
    let value = read_value(alloc, &mut reader, MOST_LEVELS)?;
    if reader.next().is_some() {
        return Err(ReadRefusal::IllFormed);
    }
    Ok(value)
}

#[cycle(read)]
fn read_value<'t>(
    alloc: Global,
    reader: &mut Reader<'t>,
    depth: usize,
) -> Result<Value<'t>, ReadRefusal>
    ensures ok { IfOk result (λ v. converted of_json (value depth reader.old) ≡ Some (view v, reader.new)) }
    ensures shorter { OnOk result (length reader.new < length reader.old) }
    ensures ill_formed { IsIllFormed result → converted of_json (value depth reader.old) ≡ None }
{
    match reader.next().ok_or(Invalid)? {
        Token::Null => Ok(Value::Null),
        Token::Bool(truth) => Ok(Value::Bool(truth)),
        Token::Number(text) => match Number::parse(text) {
            Some(number) => Ok(Value::Number(number)),
            None => Err(ReadRefusal::IllFormed),
        },
        Token::String(text) => Ok(Value::String(text)),
        Token::BeginArray => {
            if depth == 0 {
                return Err(ReadRefusal::IllFormed);
            }
            Ok(Value::Array(read_items(alloc, reader, depth - 1)?))
        }
        Token::BeginObject => {
            if depth == 0 {
                return Err(ReadRefusal::IllFormed);
            }
            Ok(Value::Object(read_members(alloc, reader, depth - 1)?))
        }
        Token::Key(_) | Token::EndArray | Token::EndObject | Token::Bad => {
            Err(ReadRefusal::IllFormed)
        }
    }
}

#[cycle(read)]
fn read_items<'t>(
    alloc: Global,
    reader: &mut Reader<'t>,
    depth: usize,
) -> Result<Vec<Value<'t>>, ReadRefusal>
    ensures ok { IfOk result (λ v. converted of_items (items (value depth) (length reader.old) reader.old) ≡ Some (items_view v.items, reader.new)) }
    ensures shorter { OnOk result (length reader.new < length reader.old) }
    ensures ill_formed { IsIllFormed result → converted of_items (items (value depth) (length reader.old) reader.old) ≡ None }
{
    let mut found = Vec::new(alloc);
    'items: while !reader.take_end_array() {
        let item = read_value(alloc, reader, depth)?;
        found.push(item)?;
    }
    Ok(found)
}

#[cycle(read)]
fn read_members<'t>(
    alloc: Global,
    reader: &mut Reader<'t>,
    depth: usize,
) -> Result<Members<'t>, ReadRefusal>
    ensures ok { IfOk result (λ m. converted (λ ms. of_members ms no_members) (members (value depth) (length reader.old) reader.old) ≡ Some (members_view m.items, reader.new)) }
    ensures shorter { OnOk result (length reader.new < length reader.old) }
    ensures ill_formed { IsIllFormed result → converted (λ ms. of_members ms no_members) (members (value depth) (length reader.old) reader.old) ≡ None }
{
    let mut found = Vec::new(alloc);
    'members: while let Some(name) = reader.next_key()? {
        let member = read_value(alloc, reader, depth)?;
        put(&mut found, name, member)?;
        if found.len() == MOST_IN_LIST {
            let map = to_map(alloc, found)?;
            return read_more_members(alloc, reader, depth, map);
        }
    }
    Ok(found)
}

// The members that follow many others.
#[cycle(read)]
fn read_more_members<'t>(
    alloc: Global,
    reader: &mut Reader<'t>,
    depth: usize,
    mut found: BTreeMap<&'t str, Value<'t>>,
) -> Result<Members<'t>, ReadRefusal>
    ensures ok { (n : ℕ) → length reader.old ≤ n → IfOk result (λ m. converted (λ ms. of_members ms (members_view found.entry.entries)) (members (value depth) n reader.old) ≡ Some (members_view m.items, reader.new)) }
    ensures shorter { OnOk result (length reader.new < length reader.old) }
    ensures ill_formed { (n : ℕ) → length reader.old ≤ n → IsIllFormed result → converted (λ ms. of_members ms (members_view found.entry.entries)) (members (value depth) n reader.old) ≡ None }
{
    'members: while let Some(name) = reader.next_key()? {
        let member = read_value(alloc, reader, depth)?;
        drop(found.insert(name, member)?);
    }
    from_map(alloc, found)
}
