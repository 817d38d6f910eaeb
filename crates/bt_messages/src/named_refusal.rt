//! Refusals that name the member at fault.
ghost use Rattle.std.specs.Prelude.{◌≡◌, ◌++◌, IfOk, string_bytes};
ghost use Rattle.std.specs.Str.Lossy.{utf8_lossy};
ghost use Rattle.bt_messages.specs.Refusals.{bad_field_line, unsupported_line};

use crate::printing::status_line;
use bt_base::{Blob, OutOfMemory};
use std::alloc::Global;

/// The one line of a request that is refused for a member that is not supported, with its line
/// feed: code 12 (`google.rpc.Code`) and the text `unsupported NAME`. What is not UTF-8 in the name
/// is printed as U+FFFD.
pub fn unsupported_line(alloc: Global, name: &[u8]) -> Result<Blob, OutOfMemory>
    ensures { IfOk result (λ out. out ≡ unsupported_line name.now) }
{
    let text = text_with_name(alloc, "unsupported ", name)?;
    status_line(alloc, 12, text.as_str())
}

/// The one line of a request that is refused for a member that the message does not have or whose
/// value is outside its type, with its line feed: code 3 (`google.rpc.Code`) and the text
/// `bad field NAME`. What is not UTF-8 in the name is printed as U+FFFD.
pub fn bad_field_line(alloc: Global, name: &[u8]) -> Result<Blob, OutOfMemory>
    ensures { IfOk result (λ out. out ≡ bad_field_line name.now) }
{
    let text = text_with_name(alloc, "bad field ", name)?;
    status_line(alloc, 3, text.as_str())
}

fn text_with_name(alloc: Global, words: &str, name: &[u8]) -> Result<String, OutOfMemory>
    ensures { IfOk result (λ text. string_bytes text ≡ words.now ++ utf8_lossy name.now) }
{
    let mut text = String::from_str(alloc, words)?;
    let name = String::from_utf8_lossy(alloc, name)?;
    text.push_str(name.as_str())?;
    Ok(text)
}
