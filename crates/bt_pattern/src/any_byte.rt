//! `\C`, which RE2 reads as any byte, in the words of `regex`.
ghost use Rattle.std.specs.Prelude.{◌≡◌, IfOk, encode_utf8_all, string_bytes, ◌++◌};
ghost use Rattle.std.specs.Str.{chars};
ghost use Rattle.bt_pattern.specs.AnyByte as spec;
ghost use Rattle.bt_pattern.specs.AnyByte.{rewrite};

use std::alloc::{AllocError, Global};

/// Where a pattern stands between two of its characters.
#[derive(Clone, Copy, Debug, PartialEq, Eq)]
pub(crate) enum Place {
    Outside,
    /// Outside a class, after a backslash that escapes what follows.
    Slashed,
    /// After the `[` of a class.
    Opened,
    /// After the `[^` of a class.
    Negated,
    /// Later in a class.
    Inside,
    /// In a class, after a backslash that escapes what follows.
    Escaped,
}

/// The text with `(?s-u:.)` for each `\C` that stands outside a class.
pub(crate) fn rewritten(alloc: Global, text: &str) -> Result<String, AllocError>
    ensures { IfOk result (λ s. string_bytes s ≡ rewrite Place.Outside text.now) }
{
    let letters = letters(alloc, text)?;
    let out = joined(alloc, letters.as_slice())?;
    Ok(out)
}

fn letters(alloc: Global, text: &str) -> Result<Vec<char>, AllocError>
    ensures { IfOk result (λ v. v.items ≡ chars text.now) }
{
    text.chars().collect(alloc)
}

fn joined(alloc: Global, letters: &[char]) -> Result<String, AllocError>
    ensures { IfOk result (λ s. string_bytes s ≡ encode_utf8_all (rewrite Place.Outside letters.now)) }
{
    let mut place = Place::Outside;
    let mut out = String::new(alloc);
    for letter in letters {
        place = put(&mut out, place, *letter)?;
    }
    if place == Place::Slashed {
        out.push('\\')?;
    }
    Ok(out)
}

fn put(out: &mut String, place: Place, letter: char) -> Result<Place, AllocError>
    ensures { IfOk result (λ p. (p ≡ spec.next place letter)
        × (string_bytes out.new ≡ string_bytes out.old ++ encode_utf8_all (spec.written place letter))) }
{
    match (place, letter) {
        (Place::Outside, '\\') => {}
        (Place::Slashed, 'C') => out.push_str("(?s-u:.)")?,
        (Place::Slashed, _) => {
            out.push('\\')?;
            out.push(letter)?;
        }
        _ => out.push(letter)?,
    }
    Ok(next(place, letter))
}

fn next(place: Place, letter: char) -> Place
    ensures { result ≡ spec.next place letter }
{
    match place {
        Place::Outside => match letter {
            '\\' => Place::Slashed,
            '[' => Place::Opened,
            _ => Place::Outside,
        },
        Place::Slashed => Place::Outside,
        Place::Opened => match letter {
            '^' => Place::Negated,
            '\\' => Place::Escaped,
            _ => Place::Inside,
        },
        Place::Negated => match letter {
            '\\' => Place::Escaped,
            _ => Place::Inside,
        },
        Place::Inside => match letter {
            '\\' => Place::Escaped,
            ']' => Place::Outside,
            _ => Place::Inside,
        },
        Place::Escaped => Place::Inside,
    }
}
