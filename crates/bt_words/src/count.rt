//! The count of connections, read from its text.
ghost use Rattle.std.specs.Prelude.{◌≡◌};
ghost use Rattle.std.specs.Char.{is_ascii_digit};
ghost use Rattle.std.specs.List.{list_all};
ghost use Rattle.bt_words.specs.Words.{count_of, is_numeral};

const MOST_DIGITS: usize = 7;

const MOST_CONNECTIONS: u32 = 1_000_000;

/// The number of connections that a word asks for: 1 to 7 decimal digits, from 1 to 1,000,000.
pub(crate) fn read_count(word: &str) -> Option<u32>
    ensures { result ≡ count_of word.now }
{
    if !is_numeral(word.as_bytes()) {
        return None;
    }
    let count = word.parse::<u32>().ok()?;
    if 1 <= count && count <= MOST_CONNECTIONS {
        Some(count)
    } else {
        None
    }
}

fn is_numeral(bytes: &[u8]) -> bool
    ensures { result ≡ is_numeral bytes.now }
{
    !bytes.is_empty() && bytes.len() <= MOST_DIGITS && are_digits(bytes)
}

fn are_digits(bytes: &[u8]) -> bool
    ensures { result ≡ list_all is_ascii_digit bytes.now }
{
    bytes.iter().all(|b| b.is_ascii_digit())
}
