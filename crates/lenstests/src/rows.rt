//! Answers over a shelf and a sink that don't fail.

ghost use Rattle.std.specs.Prelude.{◌≡◌, ◌<◌};

use crate::answers::{FLAT, FLAT_BOOK, FLAT_INDEX, expect};
use lensio::transfer::FILE_LIMIT;
use lensmodel::status::Status;
use sagform::steps::Steps;
use std::alloc::Global;
use std::marker::Brand;
use std::process::Abort;
use std::sync::ledger::{Blank, Ledger};
use std::test::Fail;

const CROWN: &[u8] =
    b"CC catalogue for one glass\nNM N-BK7 2 517642.251 1.5168 64.17 0 1\nGC borosilicate crown\nED 7.1 8.3 2.51 -0.0009 0\nTD 1.86E-06 1.31E-08 -1.37E-11 4.34E-07 6.27E-10 0.17 20\nCD 1.03961212 0.00600069867 0.231792344 0.0200179144 1.01046945 103.560653 0 0 0 0\nOD 1 1 2 0 1 1\nLD 0.31 2.5\nIT 0.31 0.37 25\n";

const POLE: &[u8] = b"NM POLE 2 0 1 0\nCD 1 0.25\n";

const ORPHAN: &[u8] = b"CD 1 0.25\nNM POLE 2 0 1 0\n";

const TWO: &[u8] = b"NM FLAT 1 0 1.5 0\nCD 2.25 0 0 0 0 0\nNM flat 2\nNM OTHER 13\nLD 0.4 0.7\n";

const LENS: &[u8] =
    b"SURF 0\nDISZ INFINITY\nSURF 1\nTYPE EVENASPH\nCURV 0.05\nDISZ 2.5\nGLAS FLAT\nDIAM 5 1\nPARM 2 -1e-5\nSTOP\nSURF 2\nGLAS MIRROR\nDISZ -1\nSURF 3\nWAVM 2 0.55 1\nPWAV 2\nUNIT MM\nVERS 1\nUNIT MM\n";

const LENS_LINES: &str =
    "lens surfaces 4 stop 1 primary 2\nsurf 0 STANDARD c 0 k 0 d INFINITY rim - glass -\nsurf 1 EVENASPH c 5e-2 k 0 d 25e-1 rim 5 glass FLAT\nparm 1 2 -1e-5\nzone 1 [5.500000000,5.500000000]\nsurf 2 STANDARD c 0 k 0 d -1 rim - glass MIRROR\nsurf 3 STANDARD c 0 k 0 d 0 rim - glass -\nwave 2 55e-2\nunused UNIT 2\nunused VERS 1\n";

/// A file, a line of words, and the text that is due.
type Row = (&'static [u8], &'static str, &'static str);

const REPORTS: [Row; 9] = [
    (LENS, "read F", LENS_LINES),
    (FLAT, "index F FLAT 0.5", FLAT_INDEX),
    (FLAT, "index F flat 0.5", FLAT_INDEX),
    (FLAT, "glass F", FLAT_BOOK),
    (
        CROWN,
        "index F n-bk7 0.5875618",
        "index N-BK7 5875618e-7 [1.516800034498,1.516800034504]\n",
    ),
    (
        CROWN,
        "index F n-bk7 0.31",
        "index N-BK7 31e-2 [1.549416606893,1.549416606897]\n",
    ),
    (
        CROWN,
        "index F n-bk7 2.5",
        "index N-BK7 25e-1 [1.486017709569,1.486017709573]\n",
    ),
    (
        CROWN,
        "glass F",
        "glasses 1\nglass N-BK7 formula 2 low 31e-2 high 25e-1 coef 103961212e-8 600069867e-11 231792344e-9 200179144e-10 101046945e-8 103560653e-6\n",
    ),
    (
        TWO,
        "glass F",
        "glasses 2\nglass FLAT formula 1 low - high - coef 225e-2 0 0 0 0 0\nglass OTHER formula 13 low 4e-1 high 7e-1 coef 0 0 0 0 0 0\n",
    ),
];

const REFUSALS: [Row; 7] = [
    (
        b"SURF 0\nSURF 1\nCURV x\n",
        "read F",
        "refused zmx bad-number line 3 word 2\n",
    ),
    (
        b"SURF 0\nSURF 1\nSURF 2\n",
        "read F",
        "refused zmx stop-count\n",
    ),
    (
        CROWN,
        "index F n-bk7 0.309999",
        "refused cross wave-range surface 0\n",
    ),
    (
        POLE,
        "index F POLE 0.5",
        "refused cross bad-index surface 0\n",
    ),
    (
        POLE,
        "index F FLAT 0.5",
        "refused cross no-glass surface 0\n",
    ),
    (
        TWO,
        "index F OTHER 0.5",
        "refused cross formula surface 0\n",
    ),
    (ORPHAN, "glass F", "refused agf orphan-record line 1\n"),
];

fn tables<R: Abort, L: Ledger>(rt: &R, alloc: Global, blank: Blank) -> Result<(), Fail>
    requires name { blank.name ≡ L.name }
    requires parts { blank.parts ≡ L.parts }
    requires some { 0 < L.parts }
{
    let mut steps = Steps::<L>::start(blank);
    for (catalogue, line, text) in REPORTS {
        let due = (Status::Done, text);
        expect(rt, alloc, &[("F", catalogue)], line, due, &mut steps)?;
    }
    for (catalogue, line, text) in REFUSALS {
        let due = (Status::Refused, text);
        expect(rt, alloc, &[("F", catalogue)], line, due, &mut steps)?;
    }
    for (line, text) in [
        ("index G FLAT 0.5", "absent agf\n"),
        ("glass G", "absent agf\n"),
        ("read G", "absent zmx\n"),
    ] {
        let due = (Status::Absent, text);
        expect(rt, alloc, &[("F", FLAT)], line, due, &mut steps)?;
    }
    Ok(())
}

#[test]
fn reports_and_refusals(rt: HostRuntime) -> Result<(), Fail> {
    tables::<HostRuntime, Brand>(&rt, rt.alloc(), Blank::new(1))
}

const MISFITS: [&str; 20] = [
    "read",
    "read F F",
    "glass",
    "glass F F",
    "Glass F",
    "trace F F",
    "trace F F F F F",
    "trace-json F F",
    "trace-json F F F F F",
    "trace_json F F F",
    "first F F",
    "first F F F F",
    "seidel F F",
    "seidel F F F F",
    "index F FLAT",
    "index F FLAT 0",
    "index F FLAT -0.5",
    "index F FLAT 0.5 0",
    // A name of 41 bytes, and a wavelength of 65.
    "index F 12345678901234567890123456789012345678901 1",
    "index F FLAT 000000000000000000000000000000000000000000000000000000000000000.5",
];

fn usages<R: Abort, L: Ledger>(rt: &R, alloc: Global, blank: Blank) -> Result<(), Fail>
    requires name { blank.name ≡ L.name }
    requires parts { blank.parts ≡ L.parts }
    requires some { 0 < L.parts }
{
    let mut steps = Steps::<L>::start(blank);
    for line in MISFITS {
        let due = (Status::Usage, "usage\n");
        expect(rt, alloc, &[("F", FLAT)], line, due, &mut steps)?;
    }
    // A name of 40 bytes, and a wavelength of 64.
    let line = "index F 1234567890123456789012345678901234567890 1";
    let due = (Status::Refused, "refused cross no-glass surface 0\n");
    expect(rt, alloc, &[("F", FLAT)], line, due, &mut steps)?;
    let line = "index F FLAT 00000000000000000000000000000000000000000000000000000000000000.5";
    let due = (Status::Done, FLAT_INDEX);
    expect(rt, alloc, &[("F", FLAT)], line, due, &mut steps)
}

#[test]
fn words_that_fit_no_command(rt: HostRuntime) -> Result<(), Fail> {
    usages::<HostRuntime, Brand>(&rt, rt.alloc(), Blank::new(1))
}

fn large_files<R: Abort, L: Ledger>(rt: &R, alloc: Global, blank: Blank) -> Result<(), Fail>
    requires name { blank.name ≡ L.name }
    requires parts { blank.parts ≡ L.parts }
    requires some { 0 < L.parts }
{
    let mut steps = Steps::<L>::start(blank);
    let mut lines: Vec<u8> = Vec::new(alloc);
    for _ in 0..4097 {
        lines.extend_from_slice(b"NM A 1\n")?;
    }
    let long = vec![in alloc; b' '; FILE_LIMIT + 1]?;
    for line in ["index F A 1", "glass F"] {
        let due = (Status::Refused, "refused agf too-many-glasses line 4097\n");
        expect(rt, alloc, &[("F", lines.as_slice())], line, due, &mut steps)?;
        let due = (Status::TooLong, "too long agf\n");
        expect(rt, alloc, &[("F", long.as_slice())], line, due, &mut steps)?;
    }
    Ok(())
}

#[test]
fn too_many_glasses_and_too_many_bytes(rt: HostRuntime) -> Result<(), Fail> {
    large_files::<HostRuntime, Brand>(&rt, rt.alloc(), Blank::new(1))
}
