//! Answers of the commands that work paraxial rays out: whole reports, refusals, and a sink of which
//! one call fails.

ghost use Rattle.std.specs.Prelude.{◌≡◌, ◌<◌};

use crate::answers::{Call, FLAT, File, PLANE, SPHERE, expect_all};
use crate::outside::expect_failing_writes;
use lensmodel::status::Status;
use sagform::steps::Steps;
use std::alloc::Global;
use std::marker::Brand;
use std::process::Abort;
use std::sync::ledger::{Blank, Ledger};
use std::test::Fail;

/// The sphere, with the object as stop.
const EARLY: &[u8] =
    b"MODE SEQ\nSURF 0\n  STOP\n  DISZ 100\nSURF 1\n  TYPE STANDARD\n  CURV 0.1\n  DISZ 10\n  GLAS FLAT\nSURF 2\n  TYPE STANDARD\n";

/// A lens with an even asphere as stop.
const SINGLET: &[u8] =
    b"MODE SEQ\nSURF 0\n  DISZ INFINITY\nSURF 1\n  CURV 0.02\n  DISZ 5\n  GLAS FLAT\nSURF 2\n  STOP\n  TYPE EVENASPH\n  CURV -0.02\n  CONI -0.5\n  DIAM 5 1\n  PARM 1 0.001\n  PARM 2 1e-5\n  DISZ 47\nSURF 3\n";

/// A hollow mirror as stop, and the image before it.
const FOLDED: &[u8] =
    b"MODE SEQ\nSURF 0\n  DISZ INFINITY\nSURF 1\n  STOP\n  CURV -0.01\n  DISZ -40\n  GLAS MIRROR\nSURF 2\n";

/// Two paraxial rays and two pairs of them, among others.
const RAYS: &[u8] =
    b"WAVE 0.5\nFIRST 1 0\nSEIDEL 1 0 0 0.1\nRAY 0 1 0 0\nFIRST 0 0.1\nSEIDEL 2 0 0 -0.05\n";

const SPHERE_VALUES: &str =
    "first scale 15\nefl [29.999999999342100,30.000000000657601]\nbfl [29.999999999342100,30.000000000657601]\nffl [-20.000000000472861,-19.999999999526930]\nfront [-0.000000000915915,0.000000000915925]\nback [-0.000000001315501,0.000000001315501]\nenp [-0.000000000001000,0.000000000001000]\nray 1 scale 15\nat 1 y [1.000000000000000,1.000000000000000] u [-0.033333333334031,-0.033333333332636]\nat 2 y [0.666666666658690,0.666666666674640] u [-0.033333333334031,-0.033333333332636]\nray 2 scale 15\nat 1 y [0.000000000000000,0.000000000000000] u [0.066666666665985,0.066666666667349]\nat 2 y [0.666666666658850,0.666666666674490] u [0.066666666665985,0.066666666667349]\n";

const EARLY_VALUES: &str =
    "first scale 15\nefl [29.999999999342100,30.000000000657601]\nbfl [29.999999999342100,30.000000000657601]\nffl [-20.000000000472861,-19.999999999526930]\nfront [-0.000000000915915,0.000000000915925]\nback [-0.000000001315501,0.000000001315501]\nenp lost root\n";

const PLANE_VALUES: &str =
    "first scale 15\nefl lost zero\nbfl lost zero\nffl lost zero\nfront lost zero\nback lost zero\nenp [-0.000000000001000,0.000000000001000]\nray 1 scale 6\nat 1 y [1000000000000.000000,1000000000000.000000] u [-0.000001,0.000001]\nat 2 y lost range u [-0.000001,0.000001]\n";

const MIRROR_VALUES: &str =
    "first scale 15\nefl [-50.000000002550001,-49.999999997450000]\nbfl [-50.000000002550001,-49.999999997450000]\nffl [-50.000000002600001,-49.999999997400000]\nfront [-0.000000005150001,0.000000005150001]\nback [-0.000000005100001,0.000000005100001]\nenp [-0.000000000001000,0.000000000001000]\nray 1 scale 15\nat 1 y [1.000000000000000,1.000000000000000] u [0.019999999999000,0.020000000001000]\nat 2 y [0.199999999959000,0.200000000041000] u [0.019999999999000,0.020000000001000]\nray 2 scale 15\nat 1 y [0.000000000000000,0.000000000000000] u [-0.100000000001000,-0.099999999999000]\nat 2 y [3.999999999959000,4.000000000041000] u [-0.100000000001000,-0.099999999999000]\n";

const SPHERE_SUMS: &str =
    "seidel lines 2\nset 1 scale 15\nsurf 1 S1 [0.000222222221217,0.000222222223227] S2 [0.000222222221217,0.000222222223227] S3 [0.000222222221217,0.000222222223227] S4 [0.000333333332333,0.000333333334334] S5 [0.000555555554555,0.000555555556556]\nwhole S1 [0.000222222221217,0.000222222223227] S2 [0.000222222221217,0.000222222223227] S3 [0.000222222221217,0.000222222223227] S4 [0.000333333332333,0.000333333334334] S5 [0.000555555554555,0.000555555556556]\nset 2 scale 15\nsurf 1 S1 [0.003555555554516,0.003555555556596] S2 [-0.000888888889899,-0.000888888887879] S3 [0.000222222221219,0.000222222223225] S4 [0.000333333332333,0.000333333334334] S5 [-0.000138888889889,-0.000138888887888]\nwhole S1 [0.003555555554516,0.003555555556596] S2 [-0.000888888889899,-0.000888888887879] S3 [0.000222222221219,0.000222222223225] S4 [0.000333333332333,0.000333333334334] S5 [-0.000138888889889,-0.000138888887888]\n";

const SINGLET_SUMS: &str =
    "seidel lines 2\nset 1 scale 15\nsurf 1 S1 [0.000001777776777,0.000001777778778] S2 [0.000008888887887,0.000008888889890] S3 [0.000044444443439,0.000044444445449] S4 [0.000066666665666,0.000066666667667] S5 [0.000555555554555,0.000555555556556]\nsurf 2 S1 [-0.000017768580088,-0.000017768578074] S2 [-0.000057589652802,-0.000057589650778] S3 [0.000109867053913,0.000109867055963] S4 [0.000059999998997,0.000060000001003] S5 [-0.000440370365218,-0.000440370363178]\nwhole S1 [-0.000015990803311,-0.000015990799296] S2 [-0.000048700764915,-0.000048700760888] S3 [0.000154311497352,0.000154311501412] S4 [0.000126666664663,0.000126666668670] S5 [0.000115185189337,0.000115185193378]\nset 2 scale 15\nsurf 1 S1 [0.000028444443442,0.000028444445446] S2 [-0.000035555556558,-0.000035555554553] S3 [0.000044444443442,0.000044444445447] S4 [0.000066666665666,0.000066666667667] S5 [-0.000138888889889,-0.000138888887888]\nsurf 2 S1 [-0.000284297266340,-0.000284297264228] S2 [0.000230358606132,0.000230358608188] S3 [0.000109867053920,0.000109867055956] S4 [0.000059999998996,0.000060000001004] S5 [0.000110092590039,0.000110092592059]\nwhole S1 [-0.000255852822898,-0.000255852818782] S2 [0.000194803049574,0.000194803053635] S3 [0.000154311497362,0.000154311501403] S4 [0.000126666664662,0.000126666668671] S5 [-0.000028796299850,-0.000028796295829]\n";

const PLANE_SUMS: &str =
    "seidel lines 1\nset 1 scale 6\nsurf 1 S1 lost range S2 lost range S3 lost range S4 lost range S5 [-0.000001,0.000001]\nwhole S1 lost range S2 lost range S3 lost range S4 lost range S5 [-0.000001,0.000001]\n";

/// The files of row after row, by name.
const SHELF: [File<'static>; 11] = [
    ("plane", PLANE),
    ("flat", FLAT),
    ("sphere", SPHERE),
    ("early", EARLY),
    ("singlet", SINGLET),
    ("folded", FOLDED),
    ("rays", RAYS),
    ("huge", b"WAVE 0.5\nFIRST 1e12 0\nSEIDEL 1e8 0 0 0.1\n"),
    ("none", b"WAVE 0.5\n"),
    ("coarse", b"WAVE 0.5\nRES 15\n"),
    ("other", b"NM OTHER 1\nCD 2.25\n"),
];

const REPORTS: [Call; 8] = [
    ("first sphere flat rays", SPHERE_VALUES),
    ("first early flat none", EARLY_VALUES),
    ("first plane flat huge", PLANE_VALUES),
    ("first folded flat rays", MIRROR_VALUES),
    ("seidel sphere flat rays", SPHERE_SUMS),
    ("seidel singlet flat rays", SINGLET_SUMS),
    ("seidel plane flat huge", PLANE_SUMS),
    ("seidel plane flat none", "seidel lines 0\n"),
];

const REFUSALS: [Call; 2] = [
    (
        "first sphere other rays",
        "refused cross no-glass surface 1\n",
    ),
    ("seidel sphere flat coarse", "refused job range line 2\n"),
];

const ABSENCES: [Call; 2] = [
    ("first sphere flat gone", "absent job\n"),
    ("seidel gone flat rays", "absent zmx\n"),
];

fn tables<R: Abort, L: Ledger>(rt: &R, alloc: Global, blank: Blank) -> Result<(), Fail>
    requires name { blank.name ≡ L.name }
    requires parts { blank.parts ≡ L.parts }
    requires some { 0 < L.parts }
{
    let mut steps = Steps::<L>::start(blank);
    expect_all(rt, alloc, &SHELF, Status::Done, &REPORTS, &mut steps)?;
    expect_all(rt, alloc, &SHELF, Status::Absent, &ABSENCES, &mut steps)?;
    expect_all(rt, alloc, &SHELF, Status::Refused, &REFUSALS, &mut steps)
}

#[test]
fn values_sums_and_refusals(rt: HostRuntime) -> Result<(), Fail> {
    tables::<HostRuntime, Brand>(&rt, rt.alloc(), Blank::new(1))
}

fn failing_sink<R: Abort, L: Ledger>(rt: &R, alloc: Global, blank: Blank) -> Result<(), Fail>
    requires name { blank.name ≡ L.name }
    requires parts { blank.parts ≡ L.parts }
    requires some { 0 < L.parts }
{
    let mut steps = Steps::<L>::start(blank);
    for (line, text, piece, calls) in [
        ("first sphere flat rays", SPHERE_VALUES, 7usize, 94u64),
        ("seidel sphere flat rays", SPHERE_SUMS, 7, 129),
    ] {
        expect_failing_writes(rt, alloc, &SHELF, (line, text), (piece, calls), &mut steps)?;
    }
    Ok(())
}

#[test]
fn each_write_of_paraxial_rays_fails_in_turn(rt: HostRuntime) -> Result<(), Fail> {
    failing_sink::<HostRuntime, Brand>(&rt, rt.alloc(), Blank::new(1))
}
