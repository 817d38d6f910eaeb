//! The commands as clap is told of them, by which it divides words into a command and its operands.
ghost use Rattle.std.specs.Prelude.{◌≡◌, [], false, IfOk, IfErr};
ghost use Rattle.clap.specs.Walk.{texts};
ghost use Rattle.clap.specs.Words.{app_of, rule_of, subcommand_rows_of};
ghost use Rattle.clap.specs.declared.builder.command.Command.TheViews.{out-Command as fields_of};
ghost use Rattle.clap.specs.Simple.{subcommand_of};
ghost use Rattle.clap.specs.Faults.{fault_of};
ghost use Rattle.bt_words.specs.Division.{operand, run_app, serve_app, bare_app, program};

use crate::WordsRefusal;
use clap::error::ErrorKind;
use clap::{Arg, ArgMatches, Command};
use std::alloc::{AllocError, Global};

/// Divides words, of which none is empty or begins with `-`, into a command and its operands.
pub(crate) fn divide<'a>(
    alloc: Global,
    words: &'a [&'a str],
) -> Result<ArgMatches<'a>, WordsRefusal>
    ensures takes { IfOk result (λ _. fault_of program (texts words.entry.now) ≡ []) }
    ensures found { IfOk result (λ matches. subcommand_rows_of matches
        ≡ subcommand_of program (texts words.entry.now)) }
    ensures usage { fault_of program (texts words.entry.now) ≡ []
        → IfErr result (λ refusal. refusal ≡ WordsRefusal.OutOfMemory) }
{
    let command = program_command(alloc)?;
    match command.try_get_matches_from(words) {
        Ok(matches) => Ok(matches),
        Err(error) => match error.kind() {
            ErrorKind::OutOfMemory => Err(WordsRefusal::OutOfMemory),
            _ => Err(WordsRefusal::Usage),
        },
    }
}

fn program_command<'a>(alloc: Global) -> Result<Command<'a>, AllocError>
    ensures { IfOk result (λ c. app_of c ≡ program) }
{
    let run = run_command(alloc)?;
    let serve = serve_command(alloc)?;
    bare_command(alloc).subcommand(run)?.subcommand(serve)
}

// The program, with no command yet.
fn bare_command<'a>(alloc: Global) -> Command<'a>
    ensures app { app_of result ≡ bare_app }
    ensures local { (fields_of result).has_globals ≡ false }
{
    Command::new(alloc, "bt")
        .no_binary_name(true)
        .disable_help_flag(true)
        .disable_help_subcommand(true)
        .disable_version_flag(true)
        .subcommand_required(true)
}

fn run_command<'a>(alloc: Global) -> Result<Command<'a>, AllocError>
    ensures app { IfOk result (λ c. app_of c ≡ run_app) }
    ensures local { IfOk result (λ c. (fields_of c).has_globals ≡ false) }
{
    let folder = operand(alloc, "DIR");
    Command::new(alloc, "run").arg(folder)
}

fn serve_command<'a>(alloc: Global) -> Result<Command<'a>, AllocError>
    ensures app { IfOk result (λ c. app_of c ≡ serve_app) }
    ensures local { IfOk result (λ c. (fields_of c).has_globals ≡ false) }
{
    let folder = operand(alloc, "DIR");
    let address = operand(alloc, "ADDRESS");
    let count = operand(alloc, "COUNT");
    Command::new(alloc, "serve")
        .arg(folder)?
        .arg(address)?
        .arg(count)
}

fn operand<'a>(alloc: Global, name: &'a str) -> Arg<'a>
    ensures rule { rule_of result ≡ operand name.now }
    ensures local { result.global ≡ false }
{
    Arg::new(alloc, name).required(true)
}
