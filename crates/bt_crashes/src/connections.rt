//! Several connections, and one that fails.

use crate::disks::new_disk;
use crate::example::{CREATE, READ, SET};
use crate::runs::{joined, links_of, serve_links};
use crate::spelling::reply_text;
use bt_base::OutOfMemory;
use bt_outside::MemoryLinks;
use bt_store::StoreFault;
use bt_top::{Exit, Limits};
use std::alloc::Global;

fn written(alloc: Global, links: &MemoryLinks, connection: u32) -> Result<String, OutOfMemory> {
    reply_text(alloc, links.written(connection))
}

fn serve(alloc: Global, links: &mut MemoryLinks, count: u32) -> Result<Exit, StoreFault> {
    let mut disk = new_disk(alloc);
    serve_links(alloc, &Limits::standard(), &mut disk, links, count)
}

// The example over two connections, with a third one that is not asked for.
fn two_of_three(alloc: Global) -> Result<String, StoreFault> {
    let rest = joined(alloc, &[SET, READ])?;
    let mut links = links_of(alloc, &[CREATE, &rest, READ])?;
    let exit = serve(alloc, &mut links, 2)?;
    let first = written(alloc, &links, 0)?;
    let second = written(alloc, &links, 1)?;
    let third = written(alloc, &links, 2)?;
    let line = format!(in alloc;
        "three connections, two asked for: {exit:?}, written to 1: {first}; to 2: {second}; to 3: {third}\n"
    )?;
    Ok(line)
}

// The links of the example in one piece. Their first call is `next`, and the second one a read. Then
// the first two replies have a write each, and that of the read has two; the read behind them fails.
fn failing_links(alloc: Global) -> Result<MemoryLinks, OutOfMemory> {
    let whole = joined(alloc, &[CREATE, SET, READ])?;
    let mut links = links_of(alloc, &[&whole])?;
    links.fail_calls(&[7, 8, 9])?;
    Ok(links)
}

fn failing_read(alloc: Global) -> Result<String, StoreFault> {
    let mut links = failing_links(alloc)?;
    let exit = serve(alloc, &mut links, 1)?;
    let reply = written(alloc, &links, 0)?;
    let mark = if links.failed(0) {
        "marked as failed"
    } else {
        "not marked"
    };
    let line = format!(in alloc;
        "reads fail behind the last byte: {exit:?}, the connection {mark}, written {reply}\n"
    )?;
    Ok(line)
}

/// Three connections of which two are served, and one whose reads fail.
pub fn lines(alloc: Global) -> Result<String, StoreFault> {
    let mut lines = two_of_three(alloc)?;
    lines.push_str(failing_read(alloc)?.as_str())?;
    Ok(lines)
}
