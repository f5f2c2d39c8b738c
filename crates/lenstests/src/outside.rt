//! Answers over a shelf or a sink of which one call fails.

ghost use Rattle.std.specs.Prelude.{◌≡◌, ◌<◌};

use crate::answers::{FLAT, FLAT_BOOK, FLAT_INDEX, File, answer, files, words};
use lensio::memory::{CalmShelf, MemShelf, MemSink};
use lensmodel::status::Status;
use lensrun::run::run;
use sagform::steps::Steps;
use std::alloc::Global;
use std::marker::Brand;
use std::process::Abort;
use std::sync::ledger::{Blank, Ledger};
use std::test::Fail;

/// Asserts how a line of words ends where one of these calls of the shelf fails, each in turn.
pub(crate) fn failing_reads<R: Abort, L: Ledger>(
    rt: &R,
    alloc: Global,
    held: &[File<'_>],
    line: &str,
    (first, last): (u64, u64),
    (status, text): (Status, &str),
    steps: &mut Steps<L>,
) -> Result<(), Fail> {
    for call in first..=last {
        let fails = vec![in alloc; call]?;
        let mut shelf = MemShelf::new(files(alloc, held)?, fails, 7);
        let (ended, written) = answer(alloc, line, &mut shelf, steps)?;
        assert_eq!(rt; ended, status, "{line}, call {call}");
        assert_eq!(rt; written.as_slice(), text.as_bytes(), "{line}, call {call}");
    }
    Ok(())
}

fn all_failing_reads<R: Abort, L: Ledger>(rt: &R, alloc: Global, blank: Blank) -> Result<(), Fail>
    requires name { blank.name ≡ L.name }
    requires parts { blank.parts ≡ L.parts }
    requires some { 0 < L.parts }
{
    let mut steps = Steps::<L>::start(blank);
    let held = [("F", FLAT)];
    for (line, text) in [("index F FLAT 0.5", FLAT_INDEX), ("glass F", FLAT_BOOK)] {
        // To choose, and then to read 36 bytes and the end.
        let due = (Status::ReadFault, "read fault agf\n");
        failing_reads(rt, alloc, &held, line, (1, 8), due, &mut steps)?;
        let due = (Status::Done, text);
        failing_reads(rt, alloc, &held, line, (9, 9), due, &mut steps)?;
    }
    Ok(())
}

#[test]
fn each_call_of_the_shelf_fails_in_turn(rt: HostRuntime) -> Result<(), Fail> {
    all_failing_reads::<HostRuntime, Brand>(&rt, rt.alloc(), Blank::new(1))
}

/// How many calls of a sink with this piece fail, in turn, or take nothing in place of failing, before
/// the text is whole.
fn failing_writes<R: Abort, L: Ledger>(
    rt: &R,
    alloc: Global,
    held: &[File<'_>],
    (line, text): (&str, &str),
    (piece, is_idle): (usize, bool),
    steps: &mut Steps<L>,
) -> Result<u64, Fail> {
    let all = words(alloc, line)?;
    for call in 1..=500u64 {
        let mut shelf = CalmShelf::new(files(alloc, held)?, 7);
        let (stop, none) = (vec![in alloc; call]?, Vec::new(alloc));
        let (fails, idle) = if is_idle { (none, stop) } else { (stop, none) };
        let mut sink = MemSink::new(alloc, 2048, fails, idle, piece.max(1))?;
        let ended = run(alloc, all.as_slice(), &mut shelf, &mut sink, steps);
        let written = sink.bytes().ok_or("the sink has no room")?;
        if ended != Status::WriteFault {
            assert_eq!(rt; written, text.as_bytes());
            return Ok(call - 1);
        }
        assert_eq!(rt;
            text.as_bytes().starts_with(written),
            true,
            "{line}, call {call}"
        );
        assert_eq!(rt; written.len() < text.len(), true, "{line}, call {call}");
    }
    Ok(0)
}

/// Asserts that so many calls of a sink with this piece fail, in turn, and that so many take nothing,
/// before the text is whole.
pub(crate) fn expect_failing_writes<R: Abort, L: Ledger>(
    rt: &R,
    alloc: Global,
    held: &[File<'_>],
    (line, text): (&str, &str),
    (piece, calls): (usize, u64),
    steps: &mut Steps<L>,
) -> Result<(), Fail> {
    let failed = failing_writes(rt, alloc, held, (line, text), (piece, false), steps)?;
    assert_eq!(rt; failed, calls, "{line}, piece {piece}");
    let idle = failing_writes(rt, alloc, held, (line, text), (piece, true), steps)?;
    assert_eq!(rt; idle, calls, "{line}, piece {piece}");
    Ok(())
}

fn all_failing_writes<R: Abort, L: Ledger>(rt: &R, alloc: Global, blank: Blank) -> Result<(), Fail>
    requires name { blank.name ≡ L.name }
    requires parts { blank.parts ≡ L.parts }
    requires some { 0 < L.parts }
{
    let mut steps = Steps::<L>::start(blank);
    let held = [("F", FLAT)];
    for (line, text, piece, calls) in [
        ("index F FLAT 0.5", FLAT_INDEX, 1usize, 48u64),
        ("index F FLAT 0.5", FLAT_INDEX, 7, 7),
        ("glass F", FLAT_BOOK, 1, 66),
        ("glass F", FLAT_BOOK, 7, 10),
        ("glass", "usage\n", 1, 6),
        ("glass G", "absent agf\n", 7, 2),
    ] {
        expect_failing_writes(rt, alloc, &held, (line, text), (piece, calls), &mut steps)?;
    }
    Ok(())
}

#[test]
fn each_call_of_the_sink_fails_in_turn(rt: HostRuntime) -> Result<(), Fail> {
    all_failing_writes::<HostRuntime, Brand>(&rt, rt.alloc(), Blank::new(1))
}
