//! The line of the statuses of MutateRows. It is written in one pass, with no value for an entry that
//! was accepted, since a request may have very many entries and nearly all are accepted.
ghost use Rattle.std.specs.Prelude.{◌≡◌, ◌++◌, ◌<◌, ◌^◌, IfOk, OnOk, decimal};
ghost use Rattle.serde_json.specs.Written.{compact_text};
ghost use Rattle.bt_messages.specs.Lines.{line_of, response_data, status_members};
ghost use Rattle.bt_messages.specs.Responses.{shown_statuses};
ghost use Rattle.bt_messages.specs.Statuses.{entries_text, entry_text, place_text};

use crate::response::EntryStatus;
use crate::status_value::status_members;
use bt_base::OutOfMemory;
use std::alloc::Global;

// Bytes that an entry that was accepted takes, at a place of up to seven digits.
const ENTRY_ROOM: usize = 32;

// Bytes of the line around the entries, and of the line of success that mostly follows it.
const FRAME_ROOM: usize = 48;

/// The line of a response of MutateRows, with its line feed.
pub(crate) fn statuses_line(alloc: Global, statuses: &[EntryStatus]) -> Result<Vec<u8>, OutOfMemory>
    ensures { IfOk result (λ out. out.items ≡ line_of (response_data (shown_statuses statuses.now))) }
{
    if statuses.is_empty() {
        return Ok(Vec::from_slice(alloc, b"{\"response\":{}}\n")?);
    }
    let room = statuses.len().saturating_mul(ENTRY_ROOM);
    let mut out = Vec::with_capacity(alloc, room.saturating_add(FRAME_ROOM))?;
    out.extend_from_slice(b"{\"response\":{\"entries\":[")?;
    push_entries(alloc, &mut out, statuses)?;
    out.extend_from_slice(b"}}\n")?;
    Ok(out)
}

// The entries, with the bracket that closes them.
fn push_entries(
    alloc: Global,
    out: &mut Vec<u8>,
    statuses: &[EntryStatus],
) -> Result<(), OutOfMemory>
    ensures { OnOk result (out.new.items ≡ out.old.items ++ entries_text 0 statuses.now) }
{
    for (index, status) in statuses.iter().enumerate() {
        push_entry(alloc, out, index, status)?;
    }
    out.push(b']')?;
    Ok(())
}

fn push_entry(
    alloc: Global,
    out: &mut Vec<u8>,
    index: usize,
    status: &EntryStatus,
) -> Result<(), OutOfMemory>
    ensures { OnOk result (out.new.items ≡ out.old.items ++ entry_text index status.now) }
{
    push_place(out, index)?;
    push_status(alloc, out, status)?;
    out.push(b'}')?;
    Ok(())
}

// What stands before the status of the entry at that place.
fn push_place(out: &mut Vec<u8>, index: usize) -> Result<(), OutOfMemory>
    ensures { OnOk result (out.new.items ≡ out.old.items ++ place_text index) }
{
    if index == 0 {
        out.extend_from_slice(b"{\"status\":")?;
        return Ok(());
    }
    out.extend_from_slice(b",{\"index\":\"")?;
    push_number(out, index)?;
    out.extend_from_slice(b"\",\"status\":")?;
    Ok(())
}

fn push_number(out: &mut Vec<u8>, number: usize) -> Result<(), OutOfMemory>
    ensures { OnOk result (out.new.items ≡ out.old.items ++ decimal number) }
{
    let mut digits = itoa::Buffer::new();
    out.extend_from_slice(digits.format(number).as_bytes())?;
    Ok(())
}

// The status of an entry. Only one that has a code or a text is worth a value.
fn push_status(alloc: Global, out: &mut Vec<u8>, status: &EntryStatus) -> Result<(), OutOfMemory>
    ensures { OnOk result (out.new.items ≡ out.old.items ++ compact_text (status_members status.now.code status.now.text)) }
{
    if status.code == 0 && status.text.text().as_bytes().is_empty() {
        out.extend_from_slice(b"{}")?;
        return Ok(());
    }
    push_refused(alloc, out, status)
}

fn push_refused(alloc: Global, out: &mut Vec<u8>, status: &EntryStatus) -> Result<(), OutOfMemory>
    ensures { OnOk result (out.new.items ≡ out.old.items ++ compact_text (status_members status.now.code status.now.text)) }
{
    let value = status_members(alloc, status.code, status.text.text())?;
    let text = value.to_vec(alloc)?;
    out.extend_from_slice(&text)?;
    Ok(())
}
