//! Texts of both widths, their words and their faults.

use crate::text::decode;
use arrayvec::ArrayVec;
use lensmodel::fault::TextFault;
use std::test::Fail;

#[test]
fn lines_of_both_widths(rt: HostRuntime) -> Result<(), Fail> {
    let wide = decode(
        rt.alloc(),
        &[0xFF, 0xFE, 0x53, 0, 13, 0, 10, 0, 0x31, 4, 10, 0],
    )?;
    assert!(rt; wide.count() == 2);
    assert_eq!(rt; wide.line(0), [0x53, 13].as_slice());
    assert_eq!(rt; wide.line(1), [0x431].as_slice());
    let marked = decode(rt.alloc(), b"\xEF\xBB\xBFAB\n\nC")?;
    assert!(rt; marked.count() == 3);
    assert_eq!(rt; marked.line(0), [65, 66].as_slice());
    assert_eq!(rt; marked.line(1), [].as_slice());
    assert_eq!(rt; marked.line(2), [67].as_slice());
    Ok(())
}

#[test]
fn counts(rt: HostRuntime) -> Result<(), Fail> {
    let table = [
        (b"".as_slice(), 0),
        (b"\xFF", 1),
        (b"\xFF\xFE", 0),
        (b"\xEF\xBB\xBF", 0),
        (b"\xEF\xBBA", 1),
        (b"\xFE\xFFA", 1),
        (b"\x00\xD8", 1),
        (b"\n", 1),
        (b"\n\nx", 3),
        (b"a b\r\nc\r\n\r\nd", 4),
        (b"\xFF\xFE\x3D\xD8\x00\xDE", 1),
        (b"\xFF\xFE\xFF\xD7\x00\xE0\xFF\xDB\xFF\xDF", 1),
    ];
    for (bytes, count) in table {
        assert_eq!(rt; decode(rt.alloc(), bytes)?.count(), count, "at {bytes:?}");
    }
    Ok(())
}

#[test]
fn refusals(rt: HostRuntime) {
    let table = [
        (b"\xFF\xFE\x53".as_slice(), TextFault::OddByte),
        (
            b"\xFF\xFE\x41\x00\x00\xD8",
            TextFault::Surrogate { line: 1 },
        ),
        (b"\xFF\xFE\x00\xDC", TextFault::Surrogate { line: 1 }),
        (
            b"\xFF\xFE\x00\xD8\x00\xD8\x00\xDC",
            TextFault::Surrogate { line: 1 },
        ),
        (
            b"\xFF\xFE\x00\xD8\x00\xDC\x00\xDC",
            TextFault::Surrogate { line: 1 },
        ),
        (
            b"\xFF\xFE\x00\xD8\x0A\x00\x00\xDC",
            TextFault::Surrogate { line: 1 },
        ),
        (
            b"\xFF\xFE\x0A\x00\x41\x00\xFF\xDF",
            TextFault::Surrogate { line: 2 },
        ),
    ];
    for (bytes, fault) in table {
        assert_eq!(rt;
            decode(rt.alloc(), bytes).err(),
            Some(fault),
            "at {bytes:?}"
        );
    }
}

#[test]
fn longest_line(rt: HostRuntime) -> Result<(), Fail> {
    let letters = [b'a'; 4097];
    assert_eq!(rt; decode(rt.alloc(), &letters[..4096])?.count(), 1);
    assert_eq!(rt;
        decode(rt.alloc(), &letters).err(),
        Some(TextFault::LongLine { line: 1 })
    );
    Ok(())
}

#[test]
fn word_places(rt: HostRuntime) -> Result<(), Fail> {
    let text = decode(rt.alloc(), b" \t a\rb \x0B c\xA0d \n\r\nlast")?;
    assert!(rt; text.count() == 3);
    let mut out = ArrayVec::new();
    text.words(0, &mut out);
    assert_eq!(rt;
        out.as_slice(),
        [(3, 4), (5, 6), (7, 8), (9, 12)].as_slice()
    );
    text.words(1, &mut out);
    assert_eq!(rt; out.as_slice(), [].as_slice());
    text.words(2, &mut out);
    assert_eq!(rt; out.as_slice(), [(0, 4)].as_slice());
    Ok(())
}

#[test]
fn no_more_than_64_words(rt: HostRuntime) -> Result<(), Fail> {
    let mut line = [b' '; 140];
    for i in 0..70 {
        line[2 * i] = b'a';
    }
    let text = decode(rt.alloc(), &line)?;
    assert!(rt; text.count() == 1);
    let mut out = ArrayVec::new();
    text.words(0, &mut out);
    assert_eq!(rt; out.len(), 64);
    assert_eq!(rt; out.as_slice().last(), Some(&(126, 127)));
    Ok(())
}
