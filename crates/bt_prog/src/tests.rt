//! The program's serving, of a client over a socket and of links that break.
ghost use Rattle.std.specs.Prelude.{None, []};

use crate::served;
use bt_outside::{Disk, LinkFailed, Links, MemoryDisk};
use bt_real::{FileDisk, TcpLinks};
use bt_top::Exit;
use bt_types::{Text, TextList};
use std::alloc::Global;
use std::fs::File;
use std::io::{Read, Write};
use std::marker::Model;
use std::net::{Net, Shutdown, SocketAddr, TcpListener, TcpStream};
use std::rt::Files;
use std::test::Fail;
use std::{env, fs, io, process, rt};

// The example of the README, and what it says of it.
static LINES: &[u8] =
    br#"{"method":"CreateTable","request":{"parent":"projects/p/instances/i","tableId":"t","table":{"columnFamilies":{"f":{}}}}}
{"method":"MutateRow","request":{"tableName":"projects/p/instances/i/tables/t","rowKey":"cg==","mutations":[{"setCell":{"familyName":"f","columnQualifier":"cQ==","timestampMicros":"1000","value":"dg=="}}]}}
{"method":"ReadRows","request":{"tableName":"projects/p/instances/i/tables/t"}}
"#;

static REPLIES: &str =
    r#"{"response":{"columnFamilies":{"f":{}},"granularity":"MILLIS","name":"projects/p/instances/i/tables/t"}}
{"status":{}}
{"response":{}}
{"status":{}}
{"response":{"chunks":[{"commitRow":true,"familyName":"f","qualifier":"cQ==","rowKey":"cg==","timestampMicros":"1000","value":"dg=="}]}}
{"status":{}}
"#;

// The words of a line with one space between them.
fn words_of(alloc: Global, line: &str) -> Result<TextList, Fail> {
    let mut words = TextList::new(alloc);
    for word in line.split(' ') {
        words.push(Text::new(alloc, word)?)?;
    }
    Ok(words)
}

// A client that has sent the lines, and sends no more.
fn client<R>(rt: &R, address: SocketAddr) -> io::Result<TcpStream>
where
    R: Net<Listener = TcpListener, Stream = TcpStream>,
{
    let mut stream = TcpStream::connect(rt, address)?;
    stream.write_all(LINES)?;
    stream.shutdown(Shutdown::Write)?;
    Ok(stream)
}

// How the program ends that serves these links over a folder.
fn serve<R>(rt: &R, alloc: Global, folder: &str, links: &mut TcpLinks<'_, R>) -> Result<Exit, Fail>
where
    R: Net<Listener = TcpListener, Stream = TcpStream> + Files<File = File> + io::Print + rt::Clock,
{
    let words = words_of(alloc, "serve DIR 127.0.0.1:0 1")?;
    let mut disk = FileDisk::new(rt, alloc, folder);
    Ok(served(rt, alloc, &words, &mut disk, links))
}

#[test]
fn a_client_over_a_socket_is_served(rt: HostRuntime) -> Result<(), Fail> {
    let alloc = rt.alloc();
    let temporary = env::temp_dir(&rt)?;
    let id = process::id(rt.process());
    let folder = format!(in alloc; "{}/bt_prog_{id}", temporary.as_str())?;
    let _ = fs::remove_dir_all(&rt, folder.as_str());
    let mut links = TcpLinks::new(&rt, "127.0.0.1:0", 1);
    assert_eq!(rt; links.bind(), Ok(()));
    let stream = client(&rt, links.local_address().ok_or("no address")?)?;
    let exit = serve(&rt, alloc, folder.as_str(), &mut links)?;
    assert_eq!(rt; exit, Exit::Done);
    assert_eq!(rt; io::read_to_string(alloc, stream)?.as_str(), REPLIES);
    fs::remove_dir_all(&rt, folder.as_str())?;
    Ok(())
}

// A connection that gives the lines at its first read, and whose later reads fail. It is seen as
// the count of its failed calls.
#[derive(Drop)]
struct BreakingLinks {
    lines: &'static [u8],
    was_given: bool,
    written: Vec<u8>,
    faults: u64,
}

impl Model for BreakingLinks {
    ghost use Rattle.std.specs.Prelude.{ℕ};

    ghost Value = { ℕ };

    ghost view = { λ l. l.faults };
}

impl<D: Disk> Links<D> for BreakingLinks {
    ghost tells = { ⊥ };

    ghost left = { λ _. [] };

    ghost at_hand = { λ _. None };

    ghost sent = { λ _. [] };

    ghost noted = { λ _. None };

    ghost faults = { λ l. l };

    ghost next_faults = { λ _. 0 };

    fn next(&mut self) -> Result<bool, LinkFailed> {
        let is_first = !self.was_given;
        self.was_given = true;
        Ok(is_first)
    }

    fn read(&mut self, into: &mut [u8]) -> Result<usize, LinkFailed> {
        match self.lines.read(into) {
            Ok(count) if count > 0 => Ok(count),
            _ => {
                self.faults = self.faults.saturating_add(1);
                Err(LinkFailed)
            }
        }
    }

    fn write(&mut self, bytes: &[u8], _disk: &D) -> Result<(), LinkFailed> {
        match self.written.extend_from_slice(bytes) {
            Ok(()) => Ok(()),
            Err(_) => {
                self.faults = self.faults.saturating_add(1);
                Err(LinkFailed)
            }
        }
    }

    fn close(&mut self) {}
}

// How the program ends that serves these links over a disk in memory.
fn run<R>(rt: &R, alloc: Global, links: &mut BreakingLinks) -> Result<Exit, Fail>
where
    R: io::Print + rt::Clock,
{
    let words = words_of(alloc, "run DIR")?;
    let mut disk = MemoryDisk::new(alloc);
    Ok(served(rt, alloc, &words, &mut disk, links))
}

#[test]
fn whole_lines_are_answered_before_a_read_that_fails(rt: HostRuntime) -> Result<(), Fail> {
    let mut links = BreakingLinks {
        lines: LINES,
        was_given: false,
        written: Vec::new(rt.alloc()),
        faults: 0,
    };
    assert_eq!(rt; run(&rt, rt.alloc(), &mut links)?, Exit::Done);
    assert_eq!(rt; links.written.as_slice(), REPLIES.as_bytes());
    assert_eq!(rt; links.faults, 1);
    Ok(())
}
