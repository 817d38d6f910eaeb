use crate::{Command, WordsRefusal, read_words};
use bt_types::{Text, TextList};
use std::alloc::Global;
use std::test::Fail;

static USAGE: [&str; 9] = [
    "run",
    "run -x",
    "run d e",
    "serve d a 0",
    "serve d a 1000001",
    "serve d a 12345678",
    "serve d a 1x",
    "help",
    "run ",
];

// Reads the words of a line with one space between them.
fn read(alloc: Global, line: &str) -> Result<Result<Command, WordsRefusal>, Fail> {
    let mut words = TextList::new(alloc);
    for word in line.split(' ') {
        words.push(Text::new(alloc, word)?)?;
    }
    Ok(read_words(alloc, &words))
}

#[test]
fn run_has_a_folder(rt: HostRuntime) -> Result<(), Fail> {
    let Command::Run { folder } = read(rt.alloc(), "run d")?? else {
        return Err(Fail::from("run"));
    };
    assert_eq!(rt; folder.bytes(), b"d".as_slice());
    Ok(())
}

#[test]
fn serve_has_a_folder_an_address_and_a_count(rt: HostRuntime) -> Result<(), Fail> {
    let Command::Serve {
        folder,
        address,
        count,
    } = read(rt.alloc(), "serve d 127.0.0.1:0 7")??
    else {
        return Err(Fail::from("serve"));
    };
    assert_eq!(rt; folder.bytes(), b"d".as_slice());
    assert_eq!(rt; address.bytes(), b"127.0.0.1:0".as_slice());
    assert_eq!(rt; count, 7);
    Ok(())
}

#[test]
fn other_words_are_usage(rt: HostRuntime) -> Result<(), Fail> {
    let alloc = rt.alloc();
    let none = TextList::new(alloc);
    assert!(rt; matches!(read_words(alloc, &none), Err(WordsRefusal::Usage)));
    for line in USAGE {
        let read = read(alloc, line)?;
        assert!(rt; matches!(read, Err(WordsRefusal::Usage)), "{line}");
    }
    Ok(())
}
