//! Sources of regular expressions, read and built as `regex` does it.
ghost use Rattle.std.specs.Prelude.{◌≡◌, ◌≢◌, IsTrue, IfOk, IfErr};
ghost use Rattle.bt_pattern.specs.Readings.{byte_config, IsReadAs, IsReadable, IsOutside};

use crate::refusal::PatternRefusal;
use regex_meta::Program;
use regex_syntax::{Config, ErrorKind, Parsed};
use std::alloc::Global;

/// The limit of `regex` on the bytes of what it builds.
const SIZE_LIMIT: usize = 10 << 20;

/// What `regex` builds from a source. A refusal for its size is `LargePattern` only where it may be large.
pub(crate) fn built(
    alloc: Global,
    source: &str,
    may_be_large: bool,
) -> Result<Program, PatternRefusal>
    ensures read { IfOk result (λ p. IsReadAs source.now p.hir) }
    ensures readable { IfOk result (λ _. IsReadable source.now) }
    ensures bad { IfErr result (λ e. e ≡ PatternRefusal.BadPattern → IsOutside source.now) }
    ensures large { IfErr result (λ e. e ≡ PatternRefusal.LargePattern → IsTrue may_be_large × IsReadable source.now) }
{
    let parsed = parsed(alloc, source)?;
    let program = compiled(alloc, parsed, may_be_large)?;
    Ok(program)
}

fn parsed(alloc: Global, source: &str) -> Result<Parsed, PatternRefusal>
    ensures read { IfOk result (λ p. IsReadAs source.now p.hir) }
    ensures readable { IfOk result (λ _. IsReadable source.now) }
    ensures bad { IfErr result (λ e. e ≡ PatternRefusal.BadPattern → IsOutside source.now) }
    ensures not_large { IfErr result (λ e. e ≢ PatternRefusal.LargePattern) }
{
    let config = byte_config();
    match regex_syntax::parse(alloc, source, &config) {
        Ok(parsed) => Ok(parsed),
        Err(error) => Err(refusal_of(error.kind)),
    }
}

fn byte_config() -> Config
    ensures { result ≡ byte_config }
{
    let mut config = Config::default();
    config.utf8 = false;
    config
}

fn refusal_of(kind: ErrorKind) -> PatternRefusal
    ensures bad { result ≡ PatternRefusal.BadPattern → kind ≢ ErrorKind.OutOfMemory }
    ensures not_large { result ≢ PatternRefusal.LargePattern }
{
    match kind {
        ErrorKind::OutOfMemory => PatternRefusal::OutOfMemory,
        _ => PatternRefusal::BadPattern,
    }
}

fn compiled(alloc: Global, parsed: Parsed, may_be_large: bool) -> Result<Program, PatternRefusal>
    ensures same { IfOk result (λ p. p.hir ≡ parsed.hir) }
    ensures not_bad { IfErr result (λ e. e ≢ PatternRefusal.BadPattern) }
    ensures large { IfErr result (λ e. e ≡ PatternRefusal.LargePattern → IsTrue may_be_large) }
{
    let Parsed { hir, names } = parsed;
    let Ok(groups) = u32::try_from(names.len()) else {
        return Err(refusal_of_size(may_be_large));
    };
    match Program::new(alloc, hir, groups, SIZE_LIMIT) {
        Ok(program) => Ok(program),
        Err(regex_compile::Error::TooBig) => Err(refusal_of_size(may_be_large)),
        Err(_) => Err(PatternRefusal::OutOfMemory),
    }
}

fn refusal_of_size(may_be_large: bool) -> PatternRefusal
    ensures not_bad { result ≢ PatternRefusal.BadPattern }
    ensures large { result ≡ PatternRefusal.LargePattern → IsTrue may_be_large }
{
    if may_be_large {
        PatternRefusal::LargePattern
    } else {
        PatternRefusal::OutOfMemory
    }
}
