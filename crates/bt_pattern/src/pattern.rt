//! Patterns.
ghost use Rattle.std.specs.Prelude.{◌≡◌, ◌⊎◌, true, IsTrue, IfOk, IfErr, ◌<◌, ◌==◌, length, All, string_bytes};
ghost use Rattle.std.specs.List.{list_any};
ghost use Rattle.bt_pattern.specs.Patterns as spec;
ghost use Rattle.bt_pattern.specs.Patterns.{IsPattern, IsBad, MayBeLarge, matches, is_plain};
ghost use Rattle.bt_pattern.specs.Readings.{IsReadAs, IsReadable, IsOutside};

use crate::any_byte::rewritten;
use crate::build::built;
use crate::finder::Finder;
use crate::refusal::PatternRefusal;
use bt_base::OutOfMemory;
use std::alloc::{AllocError, Global};
use std::marker::Model;
use std::str;

/// The most bytes of a text that is never too large, if it has no `{`.
const SHORT_BYTES: usize = 256;

/// A pattern of a row filter, as a family name or a column qualifier is matched by
/// (`google.bigtable.v2.RowFilter`). It matches whole texts. A contract sees its own text.
///
/// A plain pattern matches itself alone. In any other, `\C` outside a class stands for any byte, and the rest
/// is the syntax of `regex` over bytes.
pub struct Pattern {
    text: Vec<u8>,
    // None for a plain pattern.
    finder: Option<Box<Finder>>,
}

impl Model for Pattern {
    ghost use Rattle.std.specs.Prelude.{List, ℕ};
    ghost use Rattle.bt_pattern.specs.Compiled.{IsCompiled};

    ghost Value = { List ℕ };

    ghost view = { λ p. p.text.items };

    ghost invariant = { λ p. IsCompiled p.text.items p.finder };
}

impl Pattern {
    /// Reads a text as a pattern. A plain text is refused only where memory runs out.
    pub fn read(alloc: Global, text: &[u8]) -> Result<Pattern, PatternRefusal>
        ensures made { IfOk result (λ p. p ≡ text.now) }
        ensures readable { IfOk result (λ _. IsPattern text.now) }
        ensures plain { is_plain text.now ≡ true → IfErr result (λ e. e ≡ PatternRefusal.OutOfMemory) }
        ensures bad { IfErr result (λ e. e ≡ PatternRefusal.BadPattern → IsBad text.now) }
        ensures large { IfErr result (λ e. e ≡ PatternRefusal.LargePattern → MayBeLarge text.now) }
    {
        if is_plain(text) {
            return Ok(Pattern {
                text: Vec::from_slice(alloc, text)?,
                finder: None,
            });
        }
        let Ok(written) = str::from_utf8(text) else {
            return Err(PatternRefusal::BadPattern);
        };
        let held = Vec::from_slice(alloc, text)?;
        let finder = finder_of(alloc, written, may_be_large(text))?;
        Ok(Pattern {
            text: held,
            finder: Some(finder),
        })
    }

    /// Whether the pattern matches the whole text. Memory is asked for only where the tables of the search
    /// would pass 8 MiB, and then once for this pattern.
    pub fn is_match(&mut self, text: &[u8]) -> Result<bool, OutOfMemory>
        ensures answer { IfOk result (λ b. b ≡ matches self.old text.now) }
        ensures same { self.new ≡ self.old }
    {
        let Some(finder) = &mut self.finder else {
            return Ok(self.text.as_slice() == text);
        };
        are_bytes(text);
        let found = finder.is_match(text)?;
        Ok(found)
    }
}

// Written out, so that a caller's proof sees one call and not the drop of each field.
impl Drop for Pattern {
    fn drop(self) {
        let Pattern {
            text: _text,
            finder: _finder,
        } = self;
    }
}

/// Whether a text, read as a pattern, matches itself alone: it has only ASCII letters, digits, `_` and `-`.
pub fn is_plain(text: &[u8]) -> bool
    ensures { result ≡ spec.is_plain text.now }
{
    for byte in text {
        if !is_plain_byte(*byte) {
            return false;
        }
    }
    true
}

fn is_plain_byte(byte: u8) -> bool
    ensures { result ≡ spec.is_plain_byte byte }
{
    byte.is_ascii_alphanumeric() || byte == b'_' || byte == b'-'
}

fn may_be_large(text: &[u8]) -> bool
    ensures { IsTrue result → (256 < length text.now) ⊎ IsTrue (list_any (λ b. b == 0x7B) text.now) }
{
    text.len() > SHORT_BYTES || text.contains(&b'{')
}

/// Builds the source that a text stands for, alone and wrapped, and keeps the second.
fn finder_of(alloc: Global, text: &str, may_be_large: bool) -> Result<Box<Finder>, PatternRefusal>
    ensures alone { IfOk result (λ _. IsReadable (spec.alone text.now)) }
    ensures whole { IfOk result (λ f. IsReadAs (spec.whole text.now) f.value.program.hir) }
    ensures bad { IfErr result (λ e. e ≡ PatternRefusal.BadPattern → IsOutside (spec.alone text.now) ⊎ IsOutside (spec.whole text.now)) }
    ensures large { IfErr result (λ e. e ≡ PatternRefusal.LargePattern
        → IsTrue may_be_large × (IsReadable (spec.alone text.now) ⊎ IsReadable (spec.whole text.now))) }
{
    let alone = rewritten(alloc, text)?;
    drop(built(alloc, alone.as_str(), may_be_large)?);
    let whole = wrapped(alloc, alone.as_str())?;
    let program = built(alloc, whole.as_str(), may_be_large)?;
    let finder = Finder::new(alloc, program)?;
    Ok(Box::new(alloc, finder)?)
}

fn wrapped(alloc: Global, alone: &str) -> Result<String, AllocError>
    ensures { IfOk result (λ s. string_bytes s ≡ spec.wrapped alone.now) }
{
    let mut whole = String::from_str(alloc, "\\A(?:")?;
    whole.push_str(alone)?;
    whole.push_str(")\\z")?;
    Ok(whole)
}

// Tells a proof that each item is a byte.
fn are_bytes(bytes: &[u8])
    ensures { All (λ b. b < 256) bytes.now }
{
    let _first = bytes.first();
}
