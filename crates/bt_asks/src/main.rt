//! Reads each line of standard input as a request, and prints `ok` or why it is refused.
#![tactic(auto)]

use bt_json::Scratch;
use bt_requests::{
    LineRefusal, Method, RequestObject, RequestRefusal, read_envelope, read_request,
};
use std::alloc::{AllocError, Global};
use std::io::Read;
use std::process::ExitCode;
use std::str;

fn named(alloc: Global, text: &str, name: &[u8]) -> Result<String, AllocError> {
    let name = str::from_utf8(name).unwrap_or("?");
    format!(in alloc; "{text} {name}")
}

fn request_answer(
    alloc: Global,
    method: Method,
    object: &RequestObject<'_>,
) -> Result<String, AllocError> {
    match read_request(alloc, method, object) {
        Ok(_) => String::from_str(alloc, "ok"),
        Err(RequestRefusal::NotBuilt) => String::from_str(alloc, "not built"),
        Err(RequestRefusal::Unsupported { name }) => named(alloc, "unsupported", name.bytes()),
        Err(RequestRefusal::BadField { name }) => named(alloc, "bad field", name.bytes()),
        Err(RequestRefusal::BadName) => String::from_str(alloc, "bad name"),
        Err(RequestRefusal::OutOfMemory) => String::from_str(alloc, "out of memory"),
    }
}

fn answer(alloc: Global, line: &[u8]) -> Result<String, AllocError> {
    let mut scratch = Scratch::new(alloc);
    match read_envelope(alloc, line, &mut scratch) {
        Ok((method, object)) => request_answer(alloc, method, &object),
        Err(LineRefusal::NotJson) => String::from_str(alloc, "not json"),
        Err(LineRefusal::BadEnvelope) => String::from_str(alloc, "bad envelope"),
        Err(LineRefusal::UnknownMethod) => String::from_str(alloc, "unknown method"),
        Err(LineRefusal::OutOfMemory) => String::from_str(alloc, "out of memory"),
    }
}

fn main(rt: HostRuntime) -> ExitCode {
    let alloc = rt.alloc();
    let mut input = Vec::new(alloc);
    if rt.stdin().read_to_end(&mut input).is_err() {
        return ExitCode::from(1);
    }
    let lines = input.strip_suffix(b"\n").unwrap_or(&input);
    for line in lines.split(|b| *b == b'\n') {
        let Ok(text) = answer(alloc, line) else {
            return ExitCode::from(3);
        };
        if println!(rt; "{text}").is_err() {
            return ExitCode::from(1);
        }
    }
    ExitCode::from(0)
}
