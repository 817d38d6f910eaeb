//! Bytes, spelled for a reader.

use bt_base::OutOfMemory;
use std::alloc::Global;
use std::str;

fn push_hex(alloc: Global, text: &mut String, bytes: &[u8]) -> Result<(), OutOfMemory> {
    for byte in bytes {
        let digits = format!(in alloc; "{byte:02X}")?;
        text.push_str(digits.as_str())?;
    }
    Ok(())
}

/// The bytes in hexadecimal, divided into fields of these widths and what follows them.
pub fn hex_fields(alloc: Global, bytes: &[u8], widths: &[usize]) -> Result<String, OutOfMemory> {
    let mut text = String::new(alloc);
    let mut rest = bytes;
    for width in widths {
        let (field, behind) = rest.split_at((*width).min(rest.len()));
        push_hex(alloc, &mut text, field)?;
        text.push(' ')?;
        rest = behind;
    }
    push_hex(alloc, &mut text, rest)?;
    Ok(text)
}

/// What was written to a connection, with `\n` for each LF.
pub fn reply_text(alloc: Global, written: &[u8]) -> Result<String, OutOfMemory> {
    let mut text = String::new(alloc);
    if written.is_empty() {
        text.push_str("nothing")?;
        return Ok(text);
    }
    for piece in written.split_inclusive(|b| *b == b'\n') {
        match piece.strip_suffix(b"\n") {
            Some(line) => {
                text.push_str(str::from_utf8(line).unwrap_or("?"))?;
                text.push_str("\\n")?;
            }
            None => text.push_str(str::from_utf8(piece).unwrap_or("?"))?,
        }
    }
    Ok(text)
}
