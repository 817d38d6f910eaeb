//! Words read as a command.
ghost use Rattle.std.specs.Prelude.{◌≡◌, option_map, IfOk};
ghost use Rattle.std.specs.List.{list_all};
ghost use Rattle.clap.specs.Walk.{first_of, rows_of, texts};
ghost use Rattle.clap.specs.Words.{found_of, subcommand_rows_of};
ghost use Rattle.bt_words.specs.Words.{Reads, is_operand};
ghost use Rattle.bt_words.specs.Division.{Answers, command_in, count_in, run_in, serve_in};

use crate::count::read_count;
use crate::division::divide;
use crate::{Command, WordsRefusal};
use bt_base::Blob;
use bt_types::{Text, TextList};
use clap::ArgMatches;
use std::alloc::{AllocError, Global};

/// Reads the words of the command line, given without the program's name: `run DIR` or
/// `serve DIR ADDRESS COUNT`. No word is empty or begins with `-`. COUNT is 1 to 7 decimal digits
/// that write a number from 1 to 1,000,000, and may begin with zeros. Whether there is such a
/// folder or address is not looked at.
///
/// # Errors
/// - `Usage`: the words are neither command.
/// - `OutOfMemory`: an allocation was refused. Words of which none is empty or begins with `-` are
///   divided in memory, so it may come before it is known whether they are a command.
pub fn read_words(alloc: Global, words: &TextList) -> Result<Command, WordsRefusal>
    ensures { Reads words.now result }
{
    if !are_operands(words.items()) {
        return Err(WordsRefusal::Usage);
    }
    let texts = texts_of(alloc, words.items())?;
    let matches = divide(alloc, texts.as_slice())?;
    command_in(alloc, &matches)
}

fn are_operands(words: &[Text]) -> bool
    ensures { result ≡ list_all is_operand words.now }
{
    words.iter().all(|word| is_operand(word))
}

// Whether a word is neither empty nor an option.
fn is_operand(word: &Text) -> bool
    ensures { result ≡ is_operand word.now }
{
    match word.text().as_bytes() {
        [] => false,
        [first, ..] => *first != b'-',
    }
}

fn texts_of<'a>(alloc: Global, words: &'a [Text]) -> Result<Vec<&'a str>, AllocError>
    ensures { IfOk result (λ found. texts found.items ≡ words.entry.now) }
{
    let mut texts = Vec::with_capacity(alloc, words.len())?;
    for word in words {
        texts.push(word.text())?;
    }
    Ok(texts)
}

fn command_in(alloc: Global, matches: &ArgMatches) -> Result<Command, WordsRefusal>
    ensures { Answers (command_in (subcommand_rows_of matches.now)) result }
{
    match matches.subcommand() {
        Some(("run", operands)) => run_in(alloc, operands),
        Some(("serve", operands)) => serve_in(alloc, operands),
        _ => Err(WordsRefusal::Usage),
    }
}

fn run_in(alloc: Global, operands: &ArgMatches) -> Result<Command, WordsRefusal>
    ensures { Answers (run_in (rows_of (found_of operands.now))) result }
{
    let folder = bytes_of(alloc, operands, "DIR")?;
    Ok(Command::Run { folder })
}

fn serve_in(alloc: Global, operands: &ArgMatches) -> Result<Command, WordsRefusal>
    ensures { Answers (serve_in (rows_of (found_of operands.now))) result }
{
    let count = count_in(operands)?;
    let folder = bytes_of(alloc, operands, "DIR")?;
    let address = bytes_of(alloc, operands, "ADDRESS")?;
    Ok(Command::Serve {
        folder,
        address,
        count,
    })
}

fn bytes_of(alloc: Global, operands: &ArgMatches, name: &str) -> Result<Blob, WordsRefusal>
    ensures { Answers (first_of name.now (rows_of (found_of operands.now))) result }
{
    match word_of(operands, name) {
        Some(word) => Ok(Blob::new(alloc, word.as_bytes())?),
        None => Err(WordsRefusal::Usage),
    }
}

fn count_in(operands: &ArgMatches) -> Result<u32, WordsRefusal>
    ensures { Answers (count_in (rows_of (found_of operands.now))) result }
{
    match word_of(operands, "COUNT") {
        Some(word) => read_count(word).ok_or(WordsRefusal::Usage),
        None => Err(WordsRefusal::Usage),
    }
}

fn word_of<'a>(operands: &ArgMatches<'a>, name: &str) -> Option<&'a str>
    ensures { option_map (λ w. w.now) result ≡ first_of name.now (rows_of (found_of operands.now)) }
{
    operands.get_str(name)
}
