//! The bytes of the log and of the manifest.

use crate::disks::{bytes_of, image_of, new_disk};
use crate::example::{CREATE, SET};
use crate::runs::serve;
use crate::spelling::hex_fields;
use bt_base::OutOfMemory;
use bt_outside::MemoryDisk;
use bt_store::StoreFault;
use std::alloc::Global;

// The widths of the fields that are shown: of the first record, of both records, and of a slot.
const FIRST_RECORD: &[usize] = &[1, 4, 4, 8, 1, 2, 31, 2, 1, 1, 1, 8];

const BOTH_RECORDS: &[usize] = &[
    1, 4, 4, 8, 1, 2, 31, 2, 1, 1, 1, 8, 1, 4, 4, 8, 1, 8, 2, 1, 4, 1, 1, 1, 2, 1, 8, 4, 1,
];

const SLOT: &[usize] = &[1, 8, 4, 8, 8, 8, 4, 8, 8, 4, 4];

fn file_line(
    alloc: Global,
    disk: &MemoryDisk,
    number: u64,
    after: &str,
    widths: &[usize],
) -> Result<String, OutOfMemory> {
    let image = image_of(disk, 1)?;
    let bytes = bytes_of(&image, number);
    let count = bytes.len();
    let fields = hex_fields(alloc, bytes, widths)?;
    let line = format!(in alloc; "after {after} file {number} has {count} bytes: {fields}\n")?;
    Ok(line)
}

// The log after a line that makes or changes a table.
fn log_line(
    alloc: Global,
    disk: &mut MemoryDisk,
    bytes: &[u8],
    after: &str,
    widths: &[usize],
) -> Result<String, StoreFault> {
    let _served = serve(alloc, disk, bytes)?;
    let line = file_line(alloc, disk, 2, after, widths)?;
    Ok(line)
}

/// What the log holds after a table was made and after a cell was set, and the manifest.
pub fn lines(alloc: Global) -> Result<String, StoreFault> {
    let mut disk = new_disk(alloc);
    let first = log_line(alloc, &mut disk, CREATE, "CreateTable", FIRST_RECORD)?;
    let both = log_line(alloc, &mut disk, SET, "MutateRow", BOTH_RECORDS)?;
    let slot = file_line(alloc, &disk, 1, "MutateRow", SLOT)?;
    let lines = format!(in alloc; "{first}{both}{slot}")?;
    Ok(lines)
}
