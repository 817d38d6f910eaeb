//! A set and a first loading on disks that stop, and a set whose sync fails.

use crate::disks::{disk_of, fail, new_disk, stop};
use crate::example::{CREATE, NO_ROW, NO_TABLE, READ, ROW, SET};
use crate::runs::{calls_to_load, image_after, run, serve};
use crate::trials::{Stage, Trial, find, find_in_images, stops};
use bt_outside::{DiskImage, FileList, MemoryDisk};
use bt_store::StoreFault;
use std::alloc::Global;

// What the change shows on a disk where one of its syncs fails.
fn unsynced(
    alloc: Global,
    trial: &Trial<'_>,
    disk: &mut MemoryDisk,
    call: u64,
) -> Result<String, StoreFault> {
    let outcome = serve(alloc, disk, trial.change)?.words(alloc)?;
    let images = find_in_images(alloc, trial, disk)?;
    let again = find(alloc, trial, disk)?;
    let name = trial.name;
    let line = format!(in alloc;
        "{name}, sync at call {call} fails: {outcome}; loaded again: {again}; images 0 to 3: {images}\n"
    )?;
    Ok(line)
}

fn sync_fails(
    alloc: Global,
    trial: &Trial<'_>,
    before: &DiskImage,
    call: u64,
) -> Result<String, StoreFault> {
    let loads = calls_to_load(alloc, before)?;
    let mut disk = disk_of(alloc, before)?;
    fail(&mut disk, loads.saturating_add(call))?;
    unsynced(alloc, trial, &mut disk, call)
}

fn sets(alloc: Global) -> Result<String, StoreFault> {
    let trial = Trial {
        name: "set",
        change: SET,
        read: READ,
        records: 1,
        stages: &[
            Stage {
                reply: NO_ROW,
                words: "row absent",
            },
            Stage {
                reply: ROW,
                words: "row present",
            },
        ],
    };
    let before = image_after(alloc, CREATE)?;
    let mut lines = stops(alloc, &trial, &before)?;
    lines.push_str(sync_fails(alloc, &trial, &before, 2)?.as_str())?;
    lines.push_str(sync_fails(alloc, &trial, &before, 4)?.as_str())?;
    Ok(lines)
}

// How a run ends whose first loading stops at this call, and what a crash then leaves.
fn stopped_loading(alloc: Global, trial: &Trial<'_>, call: u64) -> Result<String, StoreFault> {
    let mut disk = new_disk(alloc);
    stop(&mut disk, call);
    let outcome = run(alloc, &mut disk, trial.read)?.words(alloc)?;
    let found = find_in_images(alloc, trial, &disk)?;
    let line = format!(in alloc; "{outcome}; images 0 to 3: {found}\n")?;
    Ok(line)
}

// A line for the first call, and one for each later call that leaves something else than the one
// before it.
fn stopped_loadings(alloc: Global, trial: &Trial<'_>, count: u64) -> Result<String, StoreFault> {
    let mut lines = String::new(alloc);
    let mut before = String::new(alloc);
    for call in 1..=count {
        let outcome = stopped_loading(alloc, trial, call)?;
        if outcome.as_str() != before.as_str() {
            let name = trial.name;
            let line = format!(in alloc;
                "{name}, disk stopped at call {call} or a later one: {outcome}"
            )?;
            lines.push_str(line.as_str())?;
        }
        before = outcome;
    }
    Ok(lines)
}

fn first_loadings(alloc: Global) -> Result<String, StoreFault> {
    let trial = Trial {
        name: "first loading",
        change: CREATE,
        read: READ,
        records: 1,
        stages: &[Stage {
            reply: NO_TABLE,
            words: "no table",
        }],
    };
    let files = FileList::new(alloc);
    let count = calls_to_load(alloc, &DiskImage { files })?;
    stopped_loadings(alloc, &trial, count)
}

/// Sets and first loadings that are stopped, and sets whose sync fails.
pub fn lines(alloc: Global) -> Result<String, StoreFault> {
    let mut lines = sets(alloc)?;
    lines.push_str(first_loadings(alloc)?.as_str())?;
    Ok(lines)
}
