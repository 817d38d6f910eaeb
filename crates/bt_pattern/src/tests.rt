use crate::{Pattern, PatternRefusal};

fn says(rt: &HostRuntime, pattern: &[u8], text: &[u8]) -> i32 {
    match Pattern::read(rt.alloc(), pattern) {
        Ok(mut pattern) => match pattern.is_match(text) {
            Ok(true) => 1,
            Ok(false) => 0,
            Err(_) => -9,
        },
        Err(PatternRefusal::BadPattern) => -1,
        Err(PatternRefusal::LargePattern) => -2,
        Err(PatternRefusal::OutOfMemory) => -3,
    }
}

#[test]
fn whole_texts_match(rt: HostRuntime) {
    assert!(&rt; says(&rt, b"abc", b"abc") == 1);
    assert!(&rt; says(&rt, b"abc", b"abcd") == 0);
    assert!(&rt; says(&rt, b"", b"") == 1);
    assert!(&rt; says(&rt, b"", b"a") == 0);
    assert!(&rt; says(&rt, b"f:q", b"f:q") == 1);
    assert!(&rt; says(&rt, b"a|ab", b"ab") == 1);
    assert!(&rt; says(&rt, b"b.", b"abc") == 0);
}

#[test]
fn any_byte_matches_any_byte(rt: HostRuntime) {
    assert!(&rt; says(&rt, b"a\\C*", b"a\xFF\n") == 1);
    assert!(&rt; says(&rt, b"a\\C{2}", b"a\xFF\n") == 1);
    assert!(&rt; says(&rt, b"a.*", b"a\xFF\n") == 0);
    assert!(&rt; says(&rt, b"\\\\C", b"\\C") == 1);
    assert!(&rt; says(&rt, b"[]\\]C]*", b"]C") == 1);
}

#[test]
fn bad_and_large_patterns_are_refused(rt: HostRuntime) {
    assert!(&rt; says(&rt, b"a)|(b", b"a") == -1);
    assert!(&rt; says(&rt, b"[\\C]", b"C") == -1);
    assert!(&rt; says(&rt, b"\xFF.", b"") == -1);
    assert!(&rt; says(&rt, b"(?x)a # b", b"a") == -1);
    assert!(&rt; says(&rt, b"\\", b"\\") == -1);
    assert!(&rt; says(&rt, b"(\\w{200}){200}", b"a") == -2);
}
