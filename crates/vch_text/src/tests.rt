use crate::{hex_bytes, next_line, parse_u128, push_hex, push_number, push_spaced, push_text};
use std::alloc::Global;
use std::test::Fail;
use vch_base::NoMemory;

/// A line of numbers of each width and of bytes.
fn written(alloc: Global) -> Result<Vec<u8>, NoMemory> {
    let mut out = Vec::new(alloc);
    push_text(&mut out, b"of ")?;
    push_number(&mut out, 4294967295u32)?;
    push_spaced(&mut out, 18446744073709551615u64)?;
    push_spaced(&mut out, u128::MAX)?;
    push_spaced(&mut out, -307i32)?;
    push_text(&mut out, b" ")?;
    push_hex(&mut out, b"\x00\xff")?;
    push_text(&mut out, b" ")?;
    push_hex(&mut out, b"")?;
    push_text(&mut out, b"\nrest")?;
    Ok(out)
}

#[test]
fn a_line_is_written(rt: HostRuntime) -> Result<(), Fail> {
    let want =
        b"of 4294967295 18446744073709551615 340282366920938463463374607431768211455 -307 00ff -";
    let Ok(text) = written(rt.alloc()) else {
        return Err(Fail::new("no memory"));
    };
    let Some((line, rest)) = next_line(&text) else {
        return Err(Fail::new("no line"));
    };
    assert_eq!(rt; line, want.as_slice());
    assert_eq!(rt; rest, b"rest".as_slice());
    Ok(())
}

#[test]
fn words_are_read(rt: HostRuntime) -> Result<(), Fail> {
    for (word, want) in [
        (b"0".as_slice(), Some(0)),
        (
            b"340282366920938463463374607431768211455".as_slice(),
            Some(u128::MAX),
        ),
        (b"340282366920938463463374607431768211456".as_slice(), None),
        (b"01".as_slice(), None),
        (b"+1".as_slice(), None),
        (b"".as_slice(), None),
    ] {
        assert_eq!(rt; parse_u128(word), want);
    }
    match hex_bytes(rt.alloc(), b"0aFf") {
        Ok(bytes) => assert_eq!(rt; bytes.as_slice(), b"\x0a\xff".as_slice()),
        Err(_) => return Err(Fail::new("no bytes")),
    }
    Ok(())
}
