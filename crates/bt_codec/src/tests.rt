use crate::{
    Fault, count_at, put_text8, put_text16, put_text32, put_u16, put_u32, put_u64, text8_at,
    text16_at, text32_at, u8_at, u16_at, u32_at, u64_at,
};
use std::alloc::Global;
use std::test::Fail;

// The numbers 258, 16909060 and 4294967298, and the texts a, b and c.
const FIELDS: &[u8] = b"\x01\x02\x01\x02\x03\x04\0\0\0\x01\0\0\0\x02\x01a\0\x01b\0\0\0\x01c";

#[test]
fn numbers_are_big_endian(rt: HostRuntime) -> Result<(), Fail> {
    assert_eq!(rt; u8_at(b"\x01z"), Ok((1, &b"z"[..])));
    assert_eq!(rt; u16_at(b"\x01\x02z"), Ok((258, &b"z"[..])));
    assert_eq!(rt; u32_at(b"\x01\x02\x03\x04z"), Ok((16_909_060, &b"z"[..])));
    assert_eq!(rt; count_at(b"\0\0\0\x02z"), Ok((2, &b"z"[..])));
    assert_eq!(rt;
        u64_at(b"\0\0\0\x01\0\0\0\x02z"),
        Ok((4_294_967_298, &b"z"[..]))
    );
    Ok(())
}

#[test]
fn texts_stand_behind_their_lengths(rt: HostRuntime) -> Result<(), Fail> {
    assert_eq!(rt; text8_at(0, 2, b"\x02abz"), Ok((&b"ab"[..], &b"z"[..])));
    assert_eq!(rt; text16_at(0, 2, b"\0\x02abz"), Ok((&b"ab"[..], &b"z"[..])));
    assert_eq!(rt;
        text32_at(0, 2, b"\0\0\0\x02abz"),
        Ok((&b"ab"[..], &b"z"[..]))
    );
    Ok(())
}

#[test]
fn faults_have_their_places(rt: HostRuntime) -> Result<(), Fail> {
    assert_eq!(rt; u64_at(b"\0\0\0"), Err(Fault::Bad { left: 3 }));
    assert_eq!(rt; count_at(b"\0\0\0\0z"), Err(Fault::Bad { left: 5 }));
    // A length that no text may have, and one that this text does not have.
    assert_eq!(rt; text8_at(0, 1, b"\x02ab"), Err(Fault::Bad { left: 3 }));
    assert_eq!(rt; text8_at(0, 2, b"\x02a"), Err(Fault::Bad { left: 1 }));
    Ok(())
}

fn spelled(alloc: Global) -> Result<Vec<u8>, Fail> {
    let mut out = Vec::new(alloc);
    put_u16(&mut out, 258)?;
    put_u32(&mut out, 16_909_060)?;
    put_u64(&mut out, 4_294_967_298)?;
    put_text8(&mut out, b"a")?;
    put_text16(&mut out, b"b")?;
    put_text32(&mut out, b"c")?;
    Ok(out)
}

#[test]
fn fields_are_written(rt: HostRuntime) -> Result<(), Fail> {
    let out = spelled(rt.alloc())?;
    assert_eq!(rt; out.as_slice(), FIELDS);
    Ok(())
}
