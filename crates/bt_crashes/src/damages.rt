//! Files that were changed by hand.

use crate::disks::{are_alike, disk_of, image_of};
use crate::edits::{Edit, with_edit};
use crate::example::{CREATE, READ, SET};
use crate::runs::{image_after, joined, run};
use bt_base::{Blob, OutOfMemory};
use bt_outside::{DiskImage, FileBytes, FileList};
use bt_store::StoreFault;
use std::alloc::Global;

// An opened slot of the manifest, with a generation that is above its limit.
const NONSENSE: &[u8] =
    b"\x01\x07\x07\x07\x07\x07\x07\x07\x07\x07\x07\x07\x07\x07\x07\x07\x07\x07\x07\x07\x07";

// How a run ends over these files, and whether it changes them.
fn outcome(alloc: Global, image: &DiskImage) -> Result<String, OutOfMemory> {
    let mut disk = disk_of(alloc, image)?;
    let served = run(alloc, &mut disk, READ)?;
    let status = served.exit.status();
    let words = served.words(alloc)?;
    let state = if are_alike(image, &image_of(&disk, 1)?) {
        "are as before"
    } else {
        "have changed"
    };
    let line = format!(in alloc; "status {status}, {words}; the files {state}\n")?;
    Ok(line)
}

fn edit_line(
    alloc: Global,
    image: &DiskImage,
    number: u64,
    edit: Edit,
) -> Result<String, OutOfMemory> {
    let changed = with_edit(alloc, image, number, edit)?;
    let outcome = outcome(alloc, &changed)?;
    let line = match edit {
        Edit::Put(at, byte) => {
            format!(in alloc; "file {number} with {byte:02X} at {at}: {outcome}")?
        }
        Edit::Keep(count) => { format!(in alloc; "file {number} cut to {count} bytes: {outcome}")? }
    };
    Ok(line)
}

fn edit_lines(
    alloc: Global,
    image: &DiskImage,
    number: u64,
    edits: &[Edit],
) -> Result<String, OutOfMemory> {
    let mut lines = String::new(alloc);
    for edit in edits {
        lines.push_str(edit_line(alloc, image, number, *edit)?.as_str())?;
    }
    Ok(lines)
}

// The first record of the log begins at 0 and has its tag at 17. The second one begins at 64, has its
// tag at 81, its incarnation up to 89 and its value at 115, and the last gate is at 116.
const LOG_EDITS: &[Edit] = &[
    Edit::Put(0, 0),
    Edit::Put(17, 0xFF),
    Edit::Put(64, 0),
    Edit::Put(81, 8),
    Edit::Put(89, 2),
    Edit::Put(115, b'w'),
    Edit::Put(116, 1),
    Edit::Put(116, 7),
    Edit::Keep(116),
    Edit::Keep(100),
    Edit::Keep(30),
    Edit::Keep(0),
];

// The generation of a slot ends at 8 and the length of its body at 12; the file of its segment begins
// at 41.
const SLOT_EDITS: &[Edit] = &[
    Edit::Put(0, 0),
    Edit::Put(8, 0),
    Edit::Put(8, 2),
    Edit::Put(12, 0x39),
    Edit::Put(41, 0xFF),
    Edit::Keep(13),
    Edit::Keep(12),
];

fn nonsense(alloc: Global) -> Result<String, OutOfMemory> {
    let bytes = Blob::new(alloc, NONSENSE)?;
    let mut files = FileList::new(alloc);
    files.push(FileBytes { number: 0, bytes })?;
    let outcome = outcome(alloc, &DiskImage { files })?;
    let line = format!(in alloc; "opened slot of nonsense: {outcome}")?;
    Ok(line)
}

/// A slot of nonsense, and a log and a slot with bytes changed or cut off.
pub fn lines(alloc: Global) -> Result<String, StoreFault> {
    let mut lines = nonsense(alloc)?;
    let image = image_after(alloc, &joined(alloc, &[CREATE, SET])?)?;
    lines.push_str(edit_lines(alloc, &image, 2, LOG_EDITS)?.as_str())?;
    lines.push_str(edit_lines(alloc, &image, 1, SLOT_EDITS)?.as_str())?;
    Ok(lines)
}
