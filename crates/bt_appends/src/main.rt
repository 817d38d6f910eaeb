//! Adds records to a segment of the write-ahead log in a folder: what `bench/appends.py` times.
#![tactic(auto)]

use bt_gate::LogFault;
use bt_log::Log;
use bt_real::FileDisk;
use std::alloc::Global;
use std::env;
use std::env::Args;
use std::process::ExitCode;
use std::rt::Env;

const SEGMENT: u64 = 2;

// The folder, how many records, and the length of each in bytes.
#[derive(Drop)]
struct Task {
    folder: String,
    count: u32,
    length: u32,
}

fn number(word: Option<String>) -> Option<u32> {
    match word {
        Some(text) => text.parse::<u32>().ok(),
        None => None,
    }
}

fn read_task(rt: &(impl Env + AllocGlobal)) -> Option<Task> {
    let Ok(words) = env::args(rt) else {
        return None;
    };
    let mut words = words.skip(1);
    let folder = words.next()?;
    let count = number(words.next())?;
    let length = number(words.next())?;
    Some(Task {
        folder,
        count,
        length,
    })
}

fn add_all<R: std::rt::Files<File = std::fs::File>>(
    alloc: Global,
    disk: &mut FileDisk<'_, R>,
    task: &Task,
) -> Result<(), LogFault> {
    let body = vec![in alloc; 7; task.length as usize]?;
    let mut log = Log::create(disk, SEGMENT)?;
    for _ in 0..task.count {
        log.append(alloc, disk, &body, task.length)?;
    }
    Ok(())
}

fn main(rt: HostRuntime) -> ExitCode {
    let Some(task) = read_task(&rt) else {
        let _ = rt.eprintln("usage: bt_appends DIR COUNT LENGTH");
        return ExitCode::from(2);
    };
    let mut disk = FileDisk::new(&rt, rt.alloc(), task.folder.as_str());
    match add_all(rt.alloc(), &mut disk, &task) {
        Ok(()) => {
            let _ = println!(rt; "{} records added", task.count);
            ExitCode::from(0)
        }
        Err(_) => {
            let _ = rt.eprintln("failed");
            ExitCode::from(4)
        }
    }
}
