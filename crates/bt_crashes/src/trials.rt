//! Changes whose disk fails, and what a read finds of them after a crash.

use crate::disks::{disk_of, left_disk, stop};
use crate::runs::{calls_to_load, serve};
use bt_outside::{DiskImage, MemoryDisk};
use bt_store::StoreFault;
use bt_top::Exit;
use std::alloc::Global;

/// A reply to the read of a trial, and what it shows.
#[derive(Clone, Copy)]
pub struct Stage<'a> {
    pub reply: &'a [u8],
    pub words: &'a str,
}

/// A line that changes the tables by one record or several, and a line that reads them.
#[derive(Clone, Copy)]
pub struct Trial<'a> {
    pub name: &'a str,
    pub change: &'a [u8],
    pub read: &'a [u8],
    /// How many records the change has.
    pub records: usize,
    pub stages: &'a [Stage<'a>],
}

fn place_of(stages: &[Stage<'_>], reply: &[u8]) -> Option<usize> {
    stages.iter().position(|stage| stage.reply == reply)
}

fn words_of<'a>(stages: &'a [Stage<'a>], reply: &[u8]) -> &'a str {
    let at = place_of(stages, reply).unwrap_or(stages.len());
    match stages.get(at) {
        Some(stage) => stage.words,
        None => "otherwise",
    }
}

/// What the trial's read finds on this disk.
pub fn find(alloc: Global, trial: &Trial<'_>, disk: &mut MemoryDisk) -> Result<String, StoreFault> {
    let served = serve(alloc, disk, trial.read)?;
    let reply: &[u8] = if served.exit == Exit::Done {
        served.reply()
    } else {
        b""
    };
    let words = String::from_str(alloc, words_of(trial.stages, reply))?;
    Ok(words)
}

fn find_left(
    alloc: Global,
    trial: &Trial<'_>,
    disk: &MemoryDisk,
    choice: u8,
) -> Result<String, StoreFault> {
    let mut left = left_disk(alloc, disk, choice)?;
    find(alloc, trial, &mut left)
}

/// What it finds in each of the images 0 to 3 of `MemoryDisk::image`. In 0 and 3 the gate that was last
/// written and not synced is closed, in 1 it is as it is read, and in 2 it is opened.
pub fn find_in_images(
    alloc: Global,
    trial: &Trial<'_>,
    disk: &MemoryDisk,
) -> Result<String, StoreFault> {
    let mut text = find_left(alloc, trial, disk, 0)?;
    for choice in 1..4 {
        let found = find_left(alloc, trial, disk, choice)?;
        text.push_str(", ")?;
        text.push_str(found.as_str())?;
    }
    Ok(text)
}

// The change on a disk that stops at this call of it.
fn stopped(
    alloc: Global,
    trial: &Trial<'_>,
    before: &DiskImage,
    loads: u64,
    call: usize,
) -> Result<String, StoreFault> {
    let mut disk = disk_of(alloc, before)?;
    stop(&mut disk, loads.saturating_add(call as u64));
    let outcome = serve(alloc, &mut disk, trial.change)?.words(alloc)?;
    let found = find_in_images(alloc, trial, &disk)?;
    let name = trial.name;
    let line = format!(in alloc;
        "{name}, disk stopped at call {call}: {outcome}; images 0 to 3: {found}\n"
    )?;
    Ok(line)
}

/// A line for each call of the change, of which a record takes four, and one for the call behind the
/// last, which is never made.
pub fn stops(alloc: Global, trial: &Trial<'_>, before: &DiskImage) -> Result<String, StoreFault> {
    let loads = calls_to_load(alloc, before)?;
    let last = trial.records.saturating_mul(4).saturating_add(1);
    let mut lines = String::new(alloc);
    for call in 1..=last {
        let line = stopped(alloc, trial, before, loads, call)?;
        lines.push_str(line.as_str())?;
    }
    Ok(lines)
}
