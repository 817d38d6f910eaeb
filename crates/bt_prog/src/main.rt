//! The program: a table service over a folder, for standard input and output or for TCP clients.
#![tactic(auto)]

use bt_base::OutOfMemory;
use bt_outside::{Disk, Links};
use bt_real::{FileDisk, LockRefused, StdLinks, StdPrint, SystemClock, TcpLinks};
use bt_top::{Command, Exit, WordsRefusal, bigtable, read_words};
use bt_types::{Text, TextList};
use std::alloc::Global;
use std::io::ErrorKind;
use std::net::SocketAddr;
use std::process::ExitCode;
use std::rt::Env;
use std::{env, io, rt};

#[cfg(test)]
mod tests;

const USAGE: &str = "usage: run DIR | serve DIR ADDRESS COUNT";

// The words without the program's name, or how the run ends without them. A word that is not text
// is no command.
fn read_arguments(rt: &(impl Env + AllocGlobal)) -> Result<TextList, Exit> {
    let arguments = match env::args(rt) {
        Ok(arguments) => arguments,
        Err(e) if e.kind() == ErrorKind::OutOfMemory => return Err(Exit::OutOfMemory),
        Err(_) => return Err(Exit::Usage),
    };
    let mut words = TextList::new(rt.alloc());
    for argument in arguments.skip(1) {
        let word = Text::new(rt.alloc(), argument.as_str());
        match word.and_then(|word| words.push(word)) {
            Ok(()) => {}
            Err(OutOfMemory) => return Err(Exit::OutOfMemory),
        }
    }
    Ok(words)
}

fn report(rt: &impl Eprint, exit: Exit) {
    let _ = match exit {
        Exit::Done => Ok(()),
        Exit::Usage => rt.eprintln(USAGE),
        Exit::OutOfMemory => rt.eprintln("out of memory"),
        Exit::DiskFault => rt.eprintln("disk failed"),
        Exit::Damaged { file, at } => eprintln!(rt; "damaged file {file} at {at}"),
        Exit::LinkFault => rt.eprintln("link failed"),
    };
}

// Two runs over one folder would write over each other.
fn not_locked(rt: &impl Eprint, refused: LockRefused) -> ExitCode {
    let _ = match refused {
        LockRefused::InUse => rt.eprintln("folder in use"),
        LockRefused::Failed => rt.eprintln("disk failed"),
    };
    ExitCode::from(Exit::DiskFault.status())
}

fn report_address(rt: &impl Eprint, address: Option<SocketAddr>) {
    if let Some(address) = address {
        let _ = eprintln!(rt; "listening on {address}");
    }
}

// A word, or nothing where there are not so many.
fn word(words: &TextList, at: usize) -> &str {
    match words.items().get(at) {
        Some(word) => word.text(),
        None => "",
    }
}

fn served<R: io::Print + rt::Clock, D: Disk, L: Links<D>>(
    rt: &R,
    alloc: Global,
    words: &TextList,
    disk: &mut D,
    links: &mut L,
) -> Exit {
    let mut clock = SystemClock::new(rt);
    let mut screen = StdPrint::new(rt);
    bigtable(alloc, words, disk, links, &mut clock, &mut screen)
}

// Ends with an exit, and says why.
fn ended(rt: &impl Eprint, exit: Exit) -> ExitCode {
    report(rt, exit);
    ExitCode::from(exit.status())
}

fn main(rt: HostRuntime) -> ExitCode {
    let words = match read_arguments(&rt) {
        Ok(words) => words,
        Err(exit) => return ended(&rt, exit),
    };
    let command = read_words(rt.alloc(), &words);
    let mut disk = FileDisk::new(&rt, rt.alloc(), word(&words, 1));
    let exit = match command {
        Ok(Command::Run { .. }) => {
            if let Err(refused) = disk.lock() {
                return not_locked(&rt, refused);
            }
            let mut links = StdLinks::new(rt.stdin(), rt.stdout());
            served(&rt, rt.alloc(), &words, &mut disk, &mut links)
        }
        Ok(Command::Serve { count, .. }) => {
            let mut links = TcpLinks::new(&rt, word(&words, 2), count);
            // A wrong address changes nothing in the folder.
            if links.bind().is_err() {
                return ended(&rt, Exit::LinkFault);
            }
            if let Err(refused) = disk.lock() {
                return not_locked(&rt, refused);
            }
            report_address(&rt, links.local_address());
            served(&rt, rt.alloc(), &words, &mut disk, &mut links)
        }
        Err(WordsRefusal::OutOfMemory) => Exit::OutOfMemory,
        Err(WordsRefusal::Usage) => {
            let mut links = StdLinks::new(rt.stdin(), rt.stdout());
            served(&rt, rt.alloc(), &words, &mut disk, &mut links)
        }
    };
    ended(&rt, exit)
}
