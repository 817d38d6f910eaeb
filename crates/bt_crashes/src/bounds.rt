//! Lines and connections at their limits, and past them.

use crate::disks::new_disk;
use crate::runs::{joined, links_of, serve_links};
use crate::spelling::reply_text;
use bt_store::StoreFault;
use bt_top::Limits;
use std::alloc::Global;

/// What a connection of these bytes is answered within these limits.
pub fn limited_line(
    alloc: Global,
    what: &str,
    limits: &Limits,
    bytes: &[u8],
) -> Result<String, StoreFault> {
    let mut links = links_of(alloc, &[bytes])?;
    let mut disk = new_disk(alloc);
    let exit = serve_links(alloc, limits, &mut disk, &mut links, 1)?;
    let reply = reply_text(alloc, links.written(0))?;
    let line = format!(in alloc; "{what}: {exit:?}, written {reply}\n")?;
    Ok(line)
}

/// Lines of at most 64 bytes, in connections of at most 100.
pub fn lines(alloc: Global) -> Result<String, StoreFault> {
    let limits = Limits {
        line: 64,
        connection: 100,
        ..Limits::standard()
    };
    let letters = vec![in alloc; b'x'; 64]?;
    let fitting = joined(alloc, &[&letters, b"\n"])?;
    let mut lines = limited_line(alloc, "limit 64, line of 64 bytes", &limits, &fitting)?;
    let longer = joined(alloc, &[&letters, b"x\nx\n"])?;
    let what = "limit 64, line of 65 bytes and a further one";
    lines.push_str(limited_line(alloc, what, &limits, &longer)?.as_str())?;
    let blanks = vec![in alloc; b'\n'; 200]?;
    let what = "limit 100, connection of 200 bytes";
    lines.push_str(limited_line(alloc, what, &limits, &blanks)?.as_str())?;
    Ok(lines)
}
