//! Which bytes are names.
ghost use Rattle.std.specs.Prelude.{◌≡◌};
ghost use Rattle.std.specs.List.{list_all, position};
ghost use Rattle.bt_types.specs.Grammar.{is_family_name, is_table_name, is_instance_table, is_table_part, is_parent, is_instance, is_label, is_label_byte, first_part, later_parts, is_slash, begins_as_table, is_name_byte, is_project_byte, is_first_byte, is_project, is_table_id};

pub(crate) fn is_table(text: &[u8]) -> bool
    ensures { result ≡ is_table_name text.now }
{
    let (projects, text) = cut(text);
    let (project, text) = cut(text);
    projects == b"projects".as_slice() && is_project(project) && is_instance_table(text)
}

fn is_instance_table(text: &[u8]) -> bool
    ensures { result ≡ is_instance_table text.now }
{
    let (instances, text) = cut(text);
    let (instance, text) = cut(text);
    instances == b"instances".as_slice() && is_project(instance) && is_table_part(text)
}

fn is_table_part(text: &[u8]) -> bool
    ensures { result ≡ is_table_part text.now }
{
    let (tables, id) = cut(text);
    tables == b"tables".as_slice() && is_table_id(id)
}

// What stands before the first slash, and what follows it.
fn cut(text: &[u8]) -> (&[u8], &[u8])
    ensures first { result.0.now ≡ first_part text.now }
    ensures later { result.1.now ≡ later_parts text.now }
{
    match slash_of(text) {
        Some(at) => (&text[..at], &text[at + 1..]),
        None => (text, &[]),
    }
}

fn slash_of(text: &[u8]) -> Option<usize>
    ensures { result ≡ position is_slash text.now }
{
    text.iter().position(|b| *b == b'/')
}

fn is_project(bytes: &[u8]) -> bool
    ensures { result ≡ is_project bytes.now }
{
    !bytes.is_empty() && bytes.len() <= 100 && are_of_project(bytes)
}

pub(crate) fn is_table_id(bytes: &[u8]) -> bool
    ensures { result ≡ is_table_id bytes.now }
{
    !bytes.is_empty() && bytes.len() <= 50 && are_of_name(bytes) && begins_as_table(bytes)
}

fn begins_as_table(bytes: &[u8]) -> bool
    ensures { result ≡ begins_as_table bytes.now }
{
    match bytes {
        [first, ..] => is_first(*first),
        [] => false,
    }
}

pub(crate) fn is_family(bytes: &[u8]) -> bool
    ensures { result ≡ is_family_name bytes.now }
{
    !bytes.is_empty() && bytes.len() <= 64 && are_of_name(bytes)
}

fn are_of_project(bytes: &[u8]) -> bool
    ensures { result ≡ list_all is_project_byte bytes.now }
{
    bytes.iter().all(|b| is_of_project(*b))
}

fn are_of_name(bytes: &[u8]) -> bool
    ensures { result ≡ list_all is_name_byte bytes.now }
{
    bytes.iter().all(|b| is_of_name(*b))
}

fn is_of_name(b: u8) -> bool
    ensures { result ≡ is_name_byte b }
{
    matches!(b, b'a'..=b'z' | b'A'..=b'Z' | b'0'..=b'9' | b'-' | b'_' | b'.')
}

fn is_of_project(b: u8) -> bool
    ensures { result ≡ is_project_byte b }
{
    is_of_name(b) || b == b':'
}

fn is_first(b: u8) -> bool
    ensures { result ≡ is_first_byte b }
{
    matches!(b, b'a'..=b'z' | b'A'..=b'Z' | b'0'..=b'9' | b'_')
}

pub(crate) fn is_parent(text: &[u8]) -> bool
    ensures { result ≡ is_parent text.now }
{
    let (projects, text) = cut(text);
    let (project, text) = cut(text);
    projects == b"projects".as_slice() && is_project(project) && is_instance(text)
}

fn is_instance(text: &[u8]) -> bool
    ensures { result ≡ is_instance text.now }
{
    let (instances, instance) = cut(text);
    instances == b"instances".as_slice() && is_project(instance)
}

pub(crate) fn is_label(bytes: &[u8]) -> bool
    ensures { result ≡ is_label bytes.now }
{
    !bytes.is_empty() && bytes.len() <= 15 && are_of_label(bytes)
}

fn are_of_label(bytes: &[u8]) -> bool
    ensures { result ≡ list_all is_label_byte bytes.now }
{
    bytes.iter().all(|b| is_of_label(*b))
}

fn is_of_label(b: u8) -> bool
    ensures { result ≡ is_label_byte b }
{
    matches!(b, b'a'..=b'z' | b'0'..=b'9' | b'-')
}
