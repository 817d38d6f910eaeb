//! Shows worked cases of the service over disks, links and a clock in memory, a line each: what its
//! files hold, what a crash leaves of them, and how runs end that fail or meet a limit.
#![tactic(auto)]

mod bodies;
mod bounds;
mod connections;
mod damages;
mod disks;
mod drops;
mod edits;
mod example;
mod files;
mod rows;
mod runs;
mod spelling;
mod stops;
mod trials;

use bt_store::StoreFault;
use std::alloc::Global;
use std::io::Write;
use std::process::ExitCode;

fn all_lines(alloc: Global) -> Result<String, StoreFault> {
    let mut lines = files::lines(alloc)?;
    lines.push_str(stops::lines(alloc)?.as_str())?;
    lines.push_str(rows::lines(alloc)?.as_str())?;
    lines.push_str(drops::lines(alloc)?.as_str())?;
    lines.push_str(damages::lines(alloc)?.as_str())?;
    lines.push_str(connections::lines(alloc)?.as_str())?;
    lines.push_str(bounds::lines(alloc)?.as_str())?;
    lines.push_str(bodies::lines(alloc)?.as_str())?;
    Ok(lines)
}

fn main(rt: HostRuntime) -> ExitCode {
    let Ok(lines) = all_lines(rt.alloc()) else {
        return ExitCode::from(3);
    };
    match rt.stdout().write_all(lines.as_bytes()) {
        Ok(()) => ExitCode::from(0),
        Err(_) => ExitCode::from(1),
    }
}
