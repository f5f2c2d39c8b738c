//! Tables of shelves and sinks.

mod outside;

use crate::memory::{CalmShelf, CalmSink, MemShelf, MemSink};
use crate::shelf::{Failed, Shelf};
use crate::sink::Sink;
use crate::transfer::{FILE_LIMIT, SlurpFault, put, slurp};
use std::alloc::{AllocError, Global};
use std::process::Abort;
use std::test::Fail;

const TEXT: &[u8] = b"ray 1 passes scale 6";

// A name held twice, an empty file, and the text.
fn files(alloc: Global) -> Result<Vec<(Vec<u8>, Vec<u8>)>, AllocError> {
    let mut files = Vec::new(alloc);
    for (name, bytes) in [
        (b"twice".as_slice(), b"first".as_slice()),
        (b"twice", b"second"),
        (b"empty", b""),
        (b"text", TEXT),
    ] {
        files.push((name.to_vec(alloc)?, bytes.to_vec(alloc)?))?;
    }
    Ok(files)
}

fn assert_slurps<R: Abort, F: Shelf>(rt: &R, alloc: Global, shelf: &mut F) {
    for (name, held) in [
        (b"twice".as_slice(), Some(b"first".as_slice())),
        (b"none", None),
        (b"empty", Some(b"")),
        (b"", None),
        (b"text", Some(TEXT)),
        (b"twic", None),
        (b"text", Some(TEXT)),
    ] {
        match (slurp(alloc, shelf, name), held) {
            (Ok(bytes), Some(held)) => assert_eq!(rt; bytes.as_slice(), held),
            (Err(fault), None) => assert_eq!(rt; fault, SlurpFault::Absent),
            _ => panic!(rt; "the name {name:?}"),
        }
    }
}

#[test]
fn whole_files_in_any_pieces(rt: HostRuntime) -> Result<(), Fail> {
    let alloc = rt.alloc();
    assert_slurps(&rt, alloc, &mut CalmShelf::new(files(alloc)?, 1));
    assert_slurps(&rt, alloc, &mut CalmShelf::new(files(alloc)?, 7));
    assert_slurps(
        &rt,
        alloc,
        &mut MemShelf::new(files(alloc)?, Vec::new(alloc), 1),
    );
    Ok(())
}

// Slurps the text while one call in turn fails, and answers how many calls there are.
fn failing_calls<R: Abort>(rt: &R, alloc: Global, piece: usize) -> Result<u64, AllocError> {
    for call in 1..100 {
        let fails = vec![in alloc; call]?;
        let mut shelf = MemShelf::new(files(alloc)?, fails, piece.max(1));
        match slurp(alloc, &mut shelf, b"text") {
            Ok(bytes) => {
                assert_eq!(rt; bytes.as_slice(), TEXT);
                return Ok(call - 1);
            }
            Err(fault) => assert_eq!(rt; fault, SlurpFault::Fault, "call {call}"),
        }
        let again = slurp(alloc, &mut shelf, b"twice");
        assert_eq!(rt; again.is_ok(), true, "after call {call}");
    }
    Ok(0)
}

#[test]
fn each_call_of_a_shelf_fails_in_turn(rt: HostRuntime) -> Result<(), Fail> {
    let alloc = rt.alloc();
    // To choose, and then to read 20 bytes and the end.
    assert_eq!(rt; failing_calls(&rt, alloc, 1)?, 22);
    assert_eq!(rt; failing_calls(&rt, alloc, 7)?, 5);
    assert_eq!(rt; failing_calls(&rt, alloc, 20)?, 3);
    Ok(())
}

#[test]
fn a_file_of_the_limit_and_one_byte_more(rt: HostRuntime) -> Result<(), Fail> {
    let alloc = rt.alloc();
    for (len, fault) in [
        (FILE_LIMIT, None),
        (FILE_LIMIT + 1, Some(SlurpFault::TooLong)),
        (FILE_LIMIT + 9000, Some(SlurpFault::TooLong)),
    ] {
        let name = b"long".to_vec(alloc)?;
        let files = vec![in alloc; (name, vec![in alloc; 7u8; len]?)]?;
        let mut shelf = CalmShelf::new(files, 65536);
        match slurp(alloc, &mut shelf, b"long") {
            Ok(bytes) => {
                assert_eq!(rt; fault, None);
                assert_eq!(rt; bytes.len(), len);
            }
            Err(found) => assert_eq!(rt; Some(found), fault),
        }
    }
    Ok(())
}

#[test]
fn a_read_with_no_file_gives_nothing(rt: HostRuntime) -> Result<(), Fail> {
    let alloc = rt.alloc();
    let mut shelf = MemShelf::new(files(alloc)?, vec![in alloc; 4]?, 7);
    let mut piece = [0u8; 30];
    assert_eq!(rt; shelf.read(&mut piece), Ok(0));
    assert_eq!(rt; shelf.choose(b"text"), Ok(true));
    assert_eq!(rt; shelf.read(&mut piece), Ok(7));
    assert_eq!(rt; shelf.choose(b"twice"), Err(Failed));
    assert_eq!(rt; shelf.read(&mut piece), Ok(0));
    assert_eq!(rt; shelf.choose(b"none"), Ok(false));
    assert_eq!(rt; shelf.read(&mut piece), Ok(0));
    Ok(())
}

#[test]
fn a_text_in_any_pieces_and_any_room(rt: HostRuntime) -> Result<(), Fail> {
    let alloc = rt.alloc();
    for (room, told) in [(0, false), (19, false), (20, true), (21, true)] {
        for piece in [1usize, 7, 20, 50] {
            let Ok(mut sink) = CalmSink::new(alloc, room, piece.max(1)) else {
                panic!(rt; "no memory");
            };
            assert_eq!(rt; sink.bytes(), Some(b"".as_slice()));
            assert_eq!(rt; put(&mut sink, TEXT), Ok(()));
            assert_eq!(rt; put(&mut sink, b""), Ok(()));
            let all = sink.bytes().is_some_and(|bytes| bytes == TEXT);
            assert_eq!(rt; all, told, "room {room}, piece {piece}");
            assert_eq!(rt; sink.bytes().is_none(), !told);
        }
    }
    Ok(())
}

// Puts the text where one call fails or takes nothing, and answers what was taken by then.
fn front_before<R: Abort>(
    rt: &R,
    alloc: Global,
    call: u64,
    idle: bool,
    piece: usize,
) -> Result<Option<usize>, AllocError> {
    let stop = vec![in alloc; call]?;
    let (fails, idle) = if idle {
        (Vec::new(alloc), stop)
    } else {
        (stop, Vec::new(alloc))
    };
    let Ok(mut sink) = MemSink::new(alloc, 20, fails, idle, piece.max(1)) else {
        panic!(rt; "no memory");
    };
    let put = put(&mut sink, TEXT);
    let Some(bytes) = sink.bytes() else {
        panic!(rt; "past the room");
    };
    assert_eq!(rt; TEXT.starts_with(bytes), true, "call {call}");
    assert_eq!(rt; put.is_ok(), bytes == TEXT, "call {call}");
    Ok(put.err().map(|_| bytes.len()))
}

#[test]
fn each_call_of_a_sink_fails_or_idles_in_turn(rt: HostRuntime) -> Result<(), Fail> {
    let alloc = rt.alloc();
    for idle in [false, true] {
        for call in 1..=20u64 {
            let taken = usize::try_from(call - 1)?;
            assert_eq!(rt; front_before(&rt, alloc, call, idle, 1)?, Some(taken));
        }
        assert_eq!(rt; front_before(&rt, alloc, 21, idle, 1)?, None);
        for (call, taken) in [(1, Some(0)), (2, Some(7)), (3, Some(14)), (4, None)] {
            assert_eq!(rt; front_before(&rt, alloc, call, idle, 7)?, taken);
        }
    }
    Ok(())
}

#[test]
fn a_call_that_fails_and_idles_fails(rt: HostRuntime) -> Result<(), Fail> {
    let alloc = rt.alloc();
    let Ok(mut sink) = MemSink::new(alloc, 20, vec![in alloc; 2]?, vec![in alloc; 1, 2]?, 7) else {
        panic!(rt; "no memory");
    };
    assert_eq!(rt; sink.write(TEXT), Ok(0));
    assert_eq!(rt; sink.write(TEXT), Err(Failed));
    assert_eq!(rt; sink.write(TEXT), Ok(7));
    assert_eq!(rt; sink.bytes(), Some(b"ray 1 p".as_slice()));
    Ok(())
}
