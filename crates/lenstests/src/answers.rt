//! Answers of the top call, and what several tests of them share.

use lensio::memory::{CalmShelf, CalmSink};
use lensio::shelf::Shelf;
use lensmodel::status::Status;
use lensrun::run::run;
use sagform::steps::Steps;
use std::alloc::Global;
use std::process::Abort;
use std::sync::ledger::Ledger;
use std::test::Fail;

/// A file's name and its bytes.
pub(crate) type File<'a> = (&'a str, &'a [u8]);

/// A line of words, and the text that is due.
pub(crate) type Call = (&'static str, &'static str);

pub(crate) const FLAT: &[u8] = b"NM FLAT 1 0 1.5 0\nCD 2.25 0 0 0 0 0\n";

pub(crate) const FLAT_INDEX: &str = "index FLAT 5e-1 [1.499999999999,1.500000000001]\n";

pub(crate) const FLAT_BOOK: &str =
    "glasses 1\nglass FLAT formula 1 low - high - coef 225e-2 0 0 0 0 0\n";

/// A plane stop, and the image behind it.
pub(crate) const PLANE: &[u8] =
    b"MODE SEQ\nSURF 0\n  DISZ INFINITY\nSURF 1\n  STOP\n  TYPE STANDARD\n  CURV 0\n  DISZ 4\nSURF 2\n  TYPE STANDARD\n";

/// A sphere of radius 10 with glass behind it.
pub(crate) const SPHERE: &[u8] =
    b"MODE SEQ\nSURF 0\n  DISZ INFINITY\nSURF 1\n  STOP\n  TYPE STANDARD\n  CURV 0.1\n  DISZ 10\n  GLAS FLAT\nSURF 2\n  TYPE STANDARD\n";

/// The words of a line.
pub(crate) fn words(alloc: Global, line: &str) -> Result<Vec<Vec<u8>>, Fail> {
    let mut all = Vec::new(alloc);
    for word in line.split(' ') {
        all.push(word.as_bytes().to_vec(alloc)?)?;
    }
    Ok(all)
}

/// The files of a shelf.
pub(crate) fn files(alloc: Global, held: &[File<'_>]) -> Result<Vec<(Vec<u8>, Vec<u8>)>, Fail> {
    let mut all = Vec::new(alloc);
    for (name, bytes) in held {
        all.push((name.as_bytes().to_vec(alloc)?, bytes.to_vec(alloc)?))?;
    }
    Ok(all)
}

/// The status and the text of a line of words over a shelf.
pub(crate) fn answer<F: Shelf, L: Ledger>(
    alloc: Global,
    line: &str,
    shelf: &mut F,
    steps: &mut Steps<L>,
) -> Result<(Status, Vec<u8>), Fail> {
    let mut sink = CalmSink::new(alloc, 2048, 3)?;
    let all = words(alloc, line)?;
    let status = run(alloc, all.as_slice(), shelf, &mut sink, steps);
    let text = sink.bytes().ok_or("the sink has no room")?.to_vec(alloc)?;
    Ok((status, text))
}

/// Asserts how a line of words ends over these files, and what it writes.
pub(crate) fn expect<R: Abort, L: Ledger>(
    rt: &R,
    alloc: Global,
    held: &[File<'_>],
    line: &str,
    (status, text): (Status, &str),
    steps: &mut Steps<L>,
) -> Result<(), Fail> {
    let mut shelf = CalmShelf::new(files(alloc, held)?, 4099);
    let (ended, written) = answer(alloc, line, &mut shelf, steps)?;
    assert_eq!(rt; ended, status, "{line}");
    assert_eq!(rt; written.as_slice(), text.as_bytes(), "{line}");
    Ok(())
}

/// Asserts of each line of words how it ends over these files, and what it writes.
pub(crate) fn expect_all<R: Abort, L: Ledger>(
    rt: &R,
    alloc: Global,
    held: &[File<'_>],
    status: Status,
    calls: &[Call],
    steps: &mut Steps<L>,
) -> Result<(), Fail> {
    for (line, text) in calls {
        expect(rt, alloc, held, line, (status, text), steps)?;
    }
    Ok(())
}
