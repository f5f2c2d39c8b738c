//! Files that don't fit together, mostly by two causes at once: the order of the cross checks.

ghost use Rattle.std.specs.Prelude.{◌≡◌, ◌<◌};

use crate::answers::{Call, File, expect_all};
use lensmodel::status::Status;
use sagform::steps::Steps;
use std::alloc::Global;
use std::marker::Brand;
use std::process::Abort;
use std::sync::ledger::{Blank, Ledger};
use std::test::Fail;

/// A glass of a formula that isn't known, one with a narrow range, and one whose index is 6; lenses
/// with two of them, or with mirrors; jobs with and without a wavelength; boxes on mirrors.
const SHELF: [File<'static>; 10] = [
    (
        "odd-gone",
        b"MODE SEQ\nSURF 0\n  DISZ INFINITY\nSURF 1\n  STOP\n  DISZ 1\n  GLAS ODD\nSURF 2\n  DISZ 1\n  GLAS GONE\nSURF 3\n",
    ),
    (
        "odd-narrow",
        b"MODE SEQ\nSURF 0\n  DISZ INFINITY\nSURF 1\n  STOP\n  DISZ 1\n  GLAS NARROW\nSURF 2\n  DISZ 1\n  GLAS ODD\nSURF 3\n",
    ),
    (
        "dense-narrow",
        b"MODE SEQ\nSURF 0\n  DISZ INFINITY\nSURF 1\n  STOP\n  DISZ 1\n  GLAS DENSE\nSURF 2\n  DISZ 1\n  GLAS NARROW\nSURF 3\n",
    ),
    (
        "dense-mirror",
        b"MODE SEQ\nSURF 0\n  DISZ INFINITY\nSURF 1\n  STOP\n  DISZ 1\n  GLAS MIRROR\nSURF 2\n  DISZ -1\n  GLAS DENSE\nSURF 3\n",
    ),
    (
        "two-mirrors",
        b"MODE SEQ\nSURF 0\n  DISZ INFINITY\nSURF 1\n  STOP\n  DISZ -1\n  GLAS MIRROR\nSURF 2\n  DISZ 1\n  GLAS MIRROR\nSURF 3\n",
    ),
    (
        "glasses",
        b"NM ODD 3\nCD 1\nNM NARROW 1\nCD 2.25\nLD 0.6 0.7\nNM DENSE 1\nCD 36\n",
    ),
    ("wave", b"WAVE 0.5\n"),
    ("still", b"RES 9\n"),
    ("mirror-1", b"TOL INDX 1 0\n"),
    ("mirrors", b"TOL INDX 2 0\nTOL INDX 1 0\n"),
];

const REFUSALS: [Call; 11] = [
    (
        "trace odd-gone glasses wave",
        "refused cross no-glass surface 2\n",
    ),
    (
        "trace odd-gone glasses still",
        "refused cross no-glass surface 2\n",
    ),
    (
        "trace odd-narrow glasses wave",
        "refused cross formula surface 2\n",
    ),
    (
        "trace odd-narrow glasses still",
        "refused cross formula surface 2\n",
    ),
    (
        "trace dense-narrow glasses still",
        "refused cross no-wave\n",
    ),
    (
        "trace dense-narrow glasses wave",
        "refused cross wave-range surface 2\n",
    ),
    (
        "trace dense-mirror glasses wave mirror-1",
        "refused cross bad-index surface 2\n",
    ),
    (
        "trace two-mirrors glasses still mirrors",
        "refused cross no-wave\n",
    ),
    (
        "trace two-mirrors glasses wave mirrors",
        "refused cross mirror-index surface 1\n",
    ),
    (
        "first dense-narrow glasses still",
        "refused cross no-wave\n",
    ),
    (
        "seidel odd-gone glasses wave",
        "refused cross no-glass surface 2\n",
    ),
];

fn order_of_causes<R: Abort, L: Ledger>(rt: &R, alloc: Global, blank: Blank) -> Result<(), Fail>
    requires name { blank.name ≡ L.name }
    requires parts { blank.parts ≡ L.parts }
    requires some { 0 < L.parts }
{
    let mut steps = Steps::<L>::start(blank);
    expect_all(rt, alloc, &SHELF, Status::Refused, &REFUSALS, &mut steps)
}

#[test]
fn two_causes_at_once(rt: HostRuntime) -> Result<(), Fail> {
    order_of_causes::<HostRuntime, Brand>(&rt, rt.alloc(), Blank::new(1))
}
