//! Lists of names in one text, and the two names of a member.
ghost use Rattle.std.specs.Prelude.{◌≡◌, ◌||◌, bytes_eq, length, position};
ghost use Rattle.std.specs.List.{list_any, slice_split};
ghost use Rattle.bt_text.specs.Members.{is_json_name, is_listed};
ghost use Rattle.bt_text.specs.Names.{is_comma, listed, original_name};

// The place of a name in a list joined by commas.
pub(crate) fn place_of(names: &[u8], name: &[u8]) -> Option<usize>
    ensures { result ≡ position (λ n. bytes_eq n name.now) (listed names.now) }
{
    if names.is_empty() {
        None
    } else {
        place_between_commas(names, name)
    }
}

fn place_between_commas(names: &[u8], name: &[u8]) -> Option<usize>
    ensures { result ≡ position (λ n. bytes_eq n name.now) (slice_split is_comma names.now) }
{
    names.split(|b| *b == b',').position(|n| n == name)
}

// How many names a list has.
pub(crate) fn count_of(names: &[u8]) -> usize
    ensures { result ≡ length (listed names.now) }
{
    if names.is_empty() {
        0
    } else {
        count_between_commas(names)
    }
}

fn count_between_commas(names: &[u8]) -> usize
    ensures { result ≡ length (slice_split is_comma names.now) }
{
    names.split(|b| *b == b',').count()
}

pub(crate) fn is_json_name(names: &[u8], name: &[u8]) -> bool
    ensures { result ≡ is_json_name (listed names.now) name.now }
{
    !names.is_empty() && is_between_commas(names, name)
}

fn is_between_commas(names: &[u8], name: &[u8]) -> bool
    ensures { result ≡ is_json_name (slice_split is_comma names.now) name.now }
{
    names.split(|b| *b == b',').any(|n| n == name)
}

// Whether a list has the name, or another of which this is the original name.
pub(crate) fn is_listed(names: &[u8], name: &[u8]) -> bool
    ensures { result ≡ is_listed (listed names.now) name.now }
{
    !names.is_empty() && is_listed_between_commas(names, name)
}

fn is_listed_between_commas(names: &[u8], name: &[u8]) -> bool
    ensures { result ≡ is_listed (slice_split is_comma names.now) name.now }
{
    names.split(|b| *b == b',').any(|n| is_name_of(n, name))
}

fn is_name_of(listed: &[u8], name: &[u8]) -> bool
    ensures { result ≡ (bytes_eq listed.now name.now || bytes_eq (original_name listed.now) name.now) }
{
    listed == name || is_original(listed, name)
}

// Whether a text is the original name of a JSON name.
pub(crate) fn is_original(name: &[u8], text: &[u8]) -> bool
    ensures { result ≡ bytes_eq (original_name name.now) text.now }
{
    match name {
        [] => text.is_empty(),
        [first, rest @ ..] if first.is_ascii_uppercase() => match text {
            [b'_', letter, behind @ ..] => *letter == *first + 32 && is_original(rest, behind),
            _ => false,
        },
        [first, rest @ ..] => match text {
            [letter, behind @ ..] => *letter == *first && is_original(rest, behind),
            [] => false,
        },
    }
}
