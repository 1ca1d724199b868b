use crate::{
    Carried, Header, HeaderFault, MessageFault, TranslationFault, decode, encode, of_send, sending,
    translate,
};
use std::alloc::Global;
use std::test::Fail;

/// A header that copies the voucher of name 1 to port 2, with id 9.
const COPYING: [u8; 24] = [
    0x13, 0x00, 0x13, 0x00, 0x18, 0x00, 0x00, 0x00, 0x02, 0x00, 0x00, 0x00, //
    0x00, 0x00, 0x00, 0x00, 0x01, 0x00, 0x00, 0x00, 0x09, 0x00, 0x00, 0x00,
];

/// The numbers of a header, in their order.
fn numbers(header: &Header) -> [u32; 6] {
    [
        header.bits(),
        header.size(),
        header.remote(),
        header.local(),
        header.voucher(),
        header.id(),
    ]
}

#[test]
fn a_header_is_read_and_written(rt: HostRuntime) -> Result<(), Fail> {
    let Ok(header) = decode(&COPYING) else {
        return Err(Fail::new("no header"));
    };
    assert_eq!(rt; numbers(&header), [1245203, 24, 2, 0, 1, 9]);
    assert_eq!(rt; encode(&header), COPYING);
    assert!(rt; decode(&COPYING[..23]) == Err(HeaderFault::Short { have: 23 }));
    let mut longer = [255; 25];
    longer[..24].copy_from_slice(&COPYING);
    assert!(rt; decode(&longer) == Ok(header));
    Ok(())
}

#[test]
fn dispositions(rt: HostRuntime) -> Result<(), Fail> {
    for number in 0..32 {
        let made = Header::of(0xFFE0_FFFF | number << 16, 0, 0, 0, 0, 0);
        let known = number == 0 || number == 17 || number == 19;
        assert_eq!(rt; made.is_ok(), known);
        if !known {
            assert!(rt; made == Err(HeaderFault::Disposition { number }));
        }
    }
    Ok(())
}

#[test]
fn what_is_carried(rt: HostRuntime) -> Result<(), Fail> {
    let moving = Carried {
        to: 2,
        moving: true,
        name: 1,
        id: 9,
    };
    assert_eq!(rt; numbers(&of_send(&moving)), [0x00110013, 24, 2, 0, 1, 9]);
    assert_eq!(rt; sending(&of_send(&moving)), moving);
    let Ok(none) = Header::of(19, 4294967295, 7, 4294967295, 5, 8) else {
        return Err(Fail::new("no header"));
    };
    let sent = sending(&none);
    assert_eq!(rt;
        (sent.to, sent.moving, sent.name, sent.id),
        (7, false, 0, 8)
    );
    Ok(())
}

const COPY: &str = "130013001800000002000000000000000100000009000000";

/// A text of five lines and a rest: a comment, four words, a message with digits of both cases, a carriage return behind a
/// message's word, and a message without a line feed.
fn text_of(alloc: Global) -> Result<String, Fail> {
    Ok(format!(in alloc;
        "#1 message {COPY}\n1 message {COPY} x\n7 message 13001100FfFFFFff02000000ffffffff01000000090000AB\n1 message\r {COPY}\n 1 message {COPY}\n1 message {COPY}"
    )?)
}

#[test]
fn a_text_is_translated(rt: HostRuntime) -> Result<(), Fail> {
    let alloc = rt.alloc();
    let text = text_of(alloc)?;
    let want = format!(in alloc;
        "#1 message {COPY}\n1 message {COPY} x\n7 send 2 move 1 2868903945\n1 message\r {COPY}\n 1 message {COPY}\n1 message {COPY}"
    )?;
    match translate(alloc, text.as_bytes()) {
        Ok(out) => assert_eq!(rt; out.as_slice(), want.as_bytes()),
        Err(_) => return Err(Fail::new("no translation")),
    }
    Ok(())
}

#[test]
fn the_first_line_that_has_none_is_told(rt: HostRuntime) -> Result<(), Fail> {
    let alloc = rt.alloc();
    let text = format!(in alloc; "1 message {COPY}\n1 message {COPY}\r\n1 message 00\n")?;
    match translate(alloc, text.as_bytes()) {
        Err(TranslationFault::At { line, why }) => {
            assert_eq!(rt; line, 2);
            assert_eq!(rt; why, MessageFault::Form);
        }
        _ => return Err(Fail::new("another answer")),
    }
    Ok(())
}
