//! Answers of the commands that trace: whole reports, refusals, and a shelf or a sink of which one call
//! fails.

ghost use Rattle.std.specs.Prelude.{◌≡◌, ◌<◌};

use crate::answers::{Call, FLAT, File, PLANE, SPHERE, expect_all};
use crate::outside::{expect_failing_writes, failing_reads};
use lensmodel::status::Status;
use sagform::steps::Steps;
use std::alloc::Global;
use std::marker::Brand;
use std::process::Abort;
use std::sync::ledger::{Blank, Ledger};
use std::test::Fail;

/// A ray through the vertex.
const SLANT: &[u8] = b"WAVE 0.5\nRAY 0 0 0 0.75\n";

/// The image up to 0.1 nearer or farther.
const THICK: &[u8] = b"TOL THIC 1 0.1\n";

/// The plane, with glass before it.
const IMMERSED: &[u8] =
    b"MODE SEQ\nSURF 0\n  DISZ INFINITY\n  GLAS FLAT\nSURF 1\n  STOP\n  TYPE STANDARD\n  CURV 0\n  DISZ 4\nSURF 2\n  TYPE STANDARD\n";

/// The plane, with a rim of radius 5.
const RIMMED: &[u8] =
    b"MODE SEQ\nSURF 0\n  DISZ INFINITY\nSURF 1\n  STOP\n  TYPE STANDARD\n  CURV 0\n  DISZ 4\n  DIAM 5 1\nSURF 2\n  TYPE STANDARD\n";

/// A plane mirror as stop, and the image before it.
const MIRROR: &[u8] =
    b"MODE SEQ\nSURF 0\n  DISZ INFINITY\nSURF 1\n  STOP\n  TYPE STANDARD\n  CURV 0\n  DISZ -4\n  GLAS MIRROR\nSURF 2\n  TYPE STANDARD\n";

/// The plane, with the image so far that an interval is wider than may be.
const FAR: &[u8] =
    b"MODE SEQ\nSURF 0\n  DISZ INFINITY\nSURF 1\n  STOP\n  TYPE STANDARD\n  CURV 0\n  DISZ 10000000\nSURF 2\n  TYPE STANDARD\n";

/// The plane, with the image so far that no scale has room for it.
const FARTHER: &[u8] =
    b"MODE SEQ\nSURF 0\n  DISZ INFINITY\nSURF 1\n  STOP\n  TYPE STANDARD\n  CURV 0\n  DISZ 1e30\nSURF 2\n  TYPE STANDARD\n";

/// A surface more than a lens may have.
const CROWD: &[u8] =
    b"MODE SEQ\nSURF 0\nSURF 1\nSURF 2\nSURF 3\nSURF 4\nSURF 5\nSURF 6\nSURF 7\nSURF 8\nSURF 9\nSURF 10\nSURF 11\nSURF 12\nSURF 13\nSURF 14\nSURF 15\nSURF 16\nSURF 17\nSURF 18\nSURF 19\nSURF 20\nSURF 21\nSURF 22\nSURF 23\nSURF 24\nSURF 25\nSURF 26\nSURF 27\nSURF 28\nSURF 29\nSURF 30\nSURF 31\nSURF 32\nSURF 33\nSURF 34\nSURF 35\nSURF 36\nSURF 37\nSURF 38\nSURF 39\nSURF 40\nSURF 41\nSURF 42\nSURF 43\nSURF 44\nSURF 45\nSURF 46\nSURF 47\nSURF 48\nSURF 49\nSURF 50\nSURF 51\nSURF 52\nSURF 53\nSURF 54\nSURF 55\nSURF 56\nSURF 57\nSURF 58\nSURF 59\nSURF 60\nSURF 61\nSURF 62\nSURF 63\nSURF 64\n";

const SLANT_ROWS: &str =
    "trace surfaces 3 wave 5e-1 res 12 width 1e-3\nray 1 passes scale 6\nat 1 rho [0.000000,0.000002] x [-0.000003,0.000003] y [-0.000003,0.000003] z [-0.000001,0.000001] path [-0.000004,0.000004]\nto 1 L [-0.000001,0.000001] M [0.599998,0.600002] N [0.799999,0.800001]\nat 2 rho [8.999862,9.000140] x [-0.000014,0.000014] y [2.999977,3.000023] z [-0.000001,0.000001] path [4.999985,5.000016]\ntotal rays 1 passes 1 vignetted 0 outside 0 tir 0 undecided 0 wide 0 lost 0\n";

const SLANT_JSON: &str =
    "{\"ray\":1,\"scale\":6,\"surfaces\":[{\"L\":[\"-0.000001\",\"0.000001\"],\"M\":[\"0.599998\",\"0.600002\"],\"N\":[\"0.799999\",\"0.800001\"],\"path\":[\"-0.000004\",\"0.000004\"],\"rho\":[\"0.000000\",\"0.000002\"],\"x\":[\"-0.000003\",\"0.000003\"],\"y\":[\"-0.000003\",\"0.000003\"],\"z\":[\"-0.000001\",\"0.000001\"]},{\"path\":[\"4.999985\",\"5.000016\"],\"rho\":[\"8.999862\",\"9.000140\"],\"x\":[\"-0.000014\",\"0.000014\"],\"y\":[\"2.999977\",\"3.000023\"],\"z\":[\"-0.000001\",\"0.000001\"]}],\"word\":\"passes\"}\n";

const BOX_ROWS: &str =
    "trace surfaces 3 wave 5e-1 res 12 width 2\nray 1 passes scale 6\nat 1 rho [-0.000002,0.000002] x [-0.000003,0.000003] y [-0.000003,0.000003] z [-0.000001,0.000001] path [-0.000005,0.000005]\nto 1 L [-0.000001,0.000001] M [0.599997,0.600003] N [0.799998,0.800002]\nat 2 rho [8.544152,9.455848] x [-0.000018,0.000018] y [2.924964,3.075036] z [-0.000001,0.000001] path [4.874976,5.125024]\ntotal rays 1 passes 1 vignetted 0 outside 0 tir 0 undecided 0 wide 0 lost 0\n";

const MIRROR_ROWS: &str =
    "trace surfaces 3 wave 5e-1 res 12 width 1e-3\nray 1 passes scale 6\nat 1 rho [0.000000,0.000002] x [-0.000003,0.000003] y [-0.000003,0.000003] z [-0.000001,0.000001] path [-0.000004,0.000004]\nto 1 L [-0.000005,0.000005] M [0.599994,0.600006] N [-0.800012,-0.799988]\nat 2 rho [8.999502,9.000500] x [-0.000034,0.000034] y [2.999917,3.000083] z [-0.000001,0.000001] path [4.999916,5.000084]\ntotal rays 1 passes 1 vignetted 0 outside 0 tir 0 undecided 0 wide 0 lost 0\n";

const FAN_ROWS: &str =
    "trace surfaces 3 wave 5e-1 res 12 width 1e-3\nray 1 passes scale 6\nat 2 rho [8.999916,9.000086] x [-0.000014,0.000014] y [-3.000014,-2.999986] z [-0.000001,0.000001] path [3.999988,4.000013]\nray 2 passes scale 6\nat 2 rho [0.000000,0.000002] x [-0.000014,0.000014] y [-0.000014,0.000014] z [-0.000001,0.000001] path [3.999988,4.000013]\nray 3 passes scale 6\nat 2 rho [8.999916,9.000086] x [-0.000014,0.000014] y [2.999986,3.000014] z [-0.000001,0.000001] path [3.999988,4.000013]\nray 4 passes scale 6\nat 2 rho [8.999916,9.000086] x [-3.000014,-2.999986] y [-0.000014,0.000014] z [-0.000001,0.000001] path [3.999988,4.000013]\nray 5 passes scale 6\nat 2 rho [0.000000,0.000002] x [-0.000014,0.000014] y [-0.000014,0.000014] z [-0.000001,0.000001] path [3.999988,4.000013]\nray 6 passes scale 6\nat 2 rho [8.999916,9.000086] x [2.999986,3.000014] y [-0.000014,0.000014] z [-0.000001,0.000001] path [3.999988,4.000013]\nray 7 passes scale 6\nat 1 rho [8.999982,9.000020] x [-0.000003,0.000003] y [2.999997,3.000003] z [-0.000001,0.000001] path [-0.000004,0.000004]\nto 1 L [-0.000001,0.000001] M [-0.000001,0.000001] N [0.999999,1.000001]\nat 2 rho [8.999916,9.000086] x [-0.000014,0.000014] y [2.999986,3.000014] z [-0.000001,0.000001] path [3.999988,4.000013]\ntotal rays 7 passes 7 vignetted 0 outside 0 tir 0 undecided 0 wide 0 lost 0\n";

const GRID_ROWS: &str =
    "trace surfaces 3 wave 5e-1 res 12 width 1e-3\nray 1 passes scale 6\nat 2 rho [17.999832,18.000170] x [-3.000014,-2.999986] y [-3.000014,-2.999986] z [-0.000001,0.000001] path [3.999988,4.000013]\nray 2 passes scale 6\nat 2 rho [8.999916,9.000086] x [-3.000014,-2.999986] y [-0.000014,0.000014] z [-0.000001,0.000001] path [3.999988,4.000013]\nray 3 passes scale 6\nat 2 rho [17.999832,18.000170] x [-3.000014,-2.999986] y [2.999986,3.000014] z [-0.000001,0.000001] path [3.999988,4.000013]\nray 4 passes scale 6\nat 2 rho [8.999916,9.000086] x [-0.000014,0.000014] y [-3.000014,-2.999986] z [-0.000001,0.000001] path [3.999988,4.000013]\nray 5 passes scale 6\nat 2 rho [0.000000,0.000002] x [-0.000014,0.000014] y [-0.000014,0.000014] z [-0.000001,0.000001] path [3.999988,4.000013]\nray 6 passes scale 6\nat 2 rho [8.999916,9.000086] x [-0.000014,0.000014] y [2.999986,3.000014] z [-0.000001,0.000001] path [3.999988,4.000013]\nray 7 passes scale 6\nat 2 rho [17.999832,18.000170] x [2.999986,3.000014] y [-3.000014,-2.999986] z [-0.000001,0.000001] path [3.999988,4.000013]\nray 8 passes scale 6\nat 2 rho [8.999916,9.000086] x [2.999986,3.000014] y [-0.000014,0.000014] z [-0.000001,0.000001] path [3.999988,4.000013]\nray 9 passes scale 6\nat 2 rho [17.999832,18.000170] x [2.999986,3.000014] y [2.999986,3.000014] z [-0.000001,0.000001] path [3.999988,4.000013]\nspot rays 9 passes 9 centroid x [-0.000014000000,0.000014000000] y [-0.000014000000,0.000014000000] msr [11.999887999869,12.000112000392]\ntotal rays 9 passes 9 vignetted 0 outside 0 tir 0 undecided 0 wide 0 lost 0\n";

const RIM_ROWS: &str =
    "trace surfaces 3 wave 5e-1 res 12 width 1e-3\nray 1 undecided 1 scale 15 rho [24.999999999989980,25.000000000010022] rim2 [25.000000000000000,25.000000000000000]\nat 1 rho [24.999999999989980,25.000000000010022] x [-0.000000000001002,0.000000000001002] y [4.999999999998998,5.000000000001002] z [-0.000000000000500,0.000000000000500] path [-0.000000000002501,0.000000000002501]\nto 1 L [-0.000000000001000,0.000000000001000] M [-0.000000000001000,0.000000000001000] N [0.999999999999499,1.000000000000500]\nat 2 rho [24.999999999939920,25.000000000060082] x [-0.000000000006008,0.000000000006008] y [4.999999999993992,5.000000000006008] z [-0.000000000000500,0.000000000000500] path [3.999999999992499,4.000000000007506]\nray 2 passes scale 6\nat 1 rho [24.009970,24.010031] x [-0.000003,0.000003] y [4.899997,4.900003] z [-0.000001,0.000001] path [-0.000004,0.000004]\nto 1 L [-0.000001,0.000001] M [-0.000001,0.000001] N [0.999999,1.000001]\nat 2 rho [24.009862,24.010139] x [-0.000014,0.000014] y [4.899986,4.900014] z [-0.000001,0.000001] path [3.999988,4.000013]\nray 3 vignetted 1 scale 6\nat 1 rho [26.009969,26.010032] x [-0.000003,0.000003] y [5.099997,5.100003] z [-0.000001,0.000001] path [-0.000004,0.000004]\ntotal rays 3 passes 1 vignetted 1 outside 0 tir 0 undecided 1 wide 0 lost 0\n";

const RIM_JSON: &str =
    "{\"at\":1,\"ray\":1,\"rho\":[\"24.999999999989980\",\"25.000000000010022\"],\"rim2\":[\"25.000000000000000\",\"25.000000000000000\"],\"scale\":15,\"surfaces\":[{\"L\":[\"-0.000000000001000\",\"0.000000000001000\"],\"M\":[\"-0.000000000001000\",\"0.000000000001000\"],\"N\":[\"0.999999999999499\",\"1.000000000000500\"],\"path\":[\"-0.000000000002501\",\"0.000000000002501\"],\"rho\":[\"24.999999999989980\",\"25.000000000010022\"],\"x\":[\"-0.000000000001002\",\"0.000000000001002\"],\"y\":[\"4.999999999998998\",\"5.000000000001002\"],\"z\":[\"-0.000000000000500\",\"0.000000000000500\"]},{\"path\":[\"3.999999999992499\",\"4.000000000007506\"],\"rho\":[\"24.999999999939920\",\"25.000000000060082\"],\"x\":[\"-0.000000000006008\",\"0.000000000006008\"],\"y\":[\"4.999999999993992\",\"5.000000000006008\"],\"z\":[\"-0.000000000000500\",\"0.000000000000500\"]}],\"word\":\"undecided\"}\n{\"ray\":2,\"scale\":6,\"surfaces\":[{\"L\":[\"-0.000001\",\"0.000001\"],\"M\":[\"-0.000001\",\"0.000001\"],\"N\":[\"0.999999\",\"1.000001\"],\"path\":[\"-0.000004\",\"0.000004\"],\"rho\":[\"24.009970\",\"24.010031\"],\"x\":[\"-0.000003\",\"0.000003\"],\"y\":[\"4.899997\",\"4.900003\"],\"z\":[\"-0.000001\",\"0.000001\"]},{\"path\":[\"3.999988\",\"4.000013\"],\"rho\":[\"24.009862\",\"24.010139\"],\"x\":[\"-0.000014\",\"0.000014\"],\"y\":[\"4.899986\",\"4.900014\"],\"z\":[\"-0.000001\",\"0.000001\"]}],\"word\":\"passes\"}\n{\"at\":1,\"ray\":3,\"scale\":6,\"surfaces\":[{\"path\":[\"-0.000004\",\"0.000004\"],\"rho\":[\"26.009969\",\"26.010032\"],\"x\":[\"-0.000003\",\"0.000003\"],\"y\":[\"5.099997\",\"5.100003\"],\"z\":[\"-0.000001\",\"0.000001\"]}],\"word\":\"vignetted\"}\n";

const STEEP_ROWS: &str =
    "trace surfaces 3 wave 5e-1 res 12 width 1e-3\nray 1 tir 1 scale 6\nat 1 rho [0.000000,0.000002] x [-0.000003,0.000003] y [-0.000005,0.000005] z [-0.000001,0.000001] path [-0.000008,0.000008]\nray 2 lost 2 zero scale 15\nat 1 rho [0.000000000000000,0.000000000000002] x [-0.000000000001002,0.000000000001002] y [-0.000000000002343,0.000000000002343] z [-0.000000000000500,0.000000000000500] path [-0.000000000004020,0.000000000004020]\nto 1 L [-0.000000000002503,0.000000000002503] M [0.999999999995772,1.000000000004231] N [-0.000000000005245,0.000002704261151]\ntotal rays 2 passes 0 vignetted 0 outside 0 tir 1 undecided 0 wide 0 lost 1\n";

const EDGE_ROWS: &str =
    "trace surfaces 3 wave 5e-1 res 12 width 1e-3\nray 1 outside 1 scale 6\nray 2 lost 1 zero scale 15\nat 1 rho [99.999999999779760,100.000000000220242] x [-0.000000000011012,0.000000000011012] y [9.999999999988988,10.000000000011012] z [9.999984814490617,10.000000000013024] path [9.999984814483617,10.000000000020035]\ntotal rays 2 passes 0 vignetted 0 outside 1 tir 0 undecided 0 wide 0 lost 1\n";

const FAR_ROWS: &str =
    "trace surfaces 3 wave 5e-1 res 12 width 1e-3\nray 1 wide scale 9\nat 1 rho [0.000000000,0.000000002] x [-0.000000003,0.000000003] y [-0.000000003,0.000000003] z [-0.000000001,0.000000001] path [-0.000000004,0.000000004]\nto 1 L [-0.000000001,0.000000001] M [-0.000000001,0.000000001] N [0.999999999,1.000000001]\nat 2 rho [0.000000000,0.000800002] x [-0.020000006,0.020000006] y [-0.020000006,0.020000006] z [-0.000000001,0.000000001] path [9999999.989999992,10000000.010000009]\ntotal rays 1 passes 0 vignetted 0 outside 0 tir 0 undecided 0 wide 1 lost 0\n";

const FARTHER_ROWS: &str =
    "trace surfaces 3 wave 5e-1 res 12 width 1e-3\nray 1 lost 2 range scale 15\nat 1 rho [0.000000000000000,0.000000000000002] x [-0.000000000001002,0.000000000001002] y [-0.000000000001002,0.000000000001002] z [-0.000000000000500,0.000000000000500] path [-0.000000000002501,0.000000000002501]\nto 1 L [-0.000000000001000,0.000000000001000] M [-0.000000000001000,0.000000000001000] N [0.999999999999499,1.000000000000500]\ntotal rays 1 passes 0 vignetted 0 outside 0 tir 0 undecided 0 wide 0 lost 1\n";

const FARTHER_JSON: &str =
    "{\"at\":2,\"ray\":1,\"scale\":15,\"surfaces\":[{\"L\":[\"-0.000000000001000\",\"0.000000000001000\"],\"M\":[\"-0.000000000001000\",\"0.000000000001000\"],\"N\":[\"0.999999999999499\",\"1.000000000000500\"],\"path\":[\"-0.000000000002501\",\"0.000000000002501\"],\"rho\":[\"0.000000000000000\",\"0.000000000000002\"],\"x\":[\"-0.000000000001002\",\"0.000000000001002\"],\"y\":[\"-0.000000000001002\",\"0.000000000001002\"],\"z\":[\"-0.000000000000500\",\"0.000000000000500\"]}],\"why\":\"range\",\"word\":\"lost\"}\n";

/// The files of row after row, by name.
const SHELF: [File<'static>; 24] = [
    ("plane", PLANE),
    ("flat", FLAT),
    ("slant", SLANT),
    ("thick", THICK),
    ("sphere", SPHERE),
    ("immersed", IMMERSED),
    ("rimmed", RIMMED),
    ("mirror", MIRROR),
    ("far", FAR),
    ("farther", FARTHER),
    ("crowd", CROWD),
    ("other", b"NM OTHER 1\nCD 2.25\n"),
    ("orphan", b"CD 2.25\nNM FLAT 1\n"),
    ("axis", b"WAVE 0.5\nRAY 0 0 0 0\n"),
    ("none", b"WAVE 0.5\n"),
    ("loose", b"WAVE 0.5\nWIDTH 2\nRAY 0 0 0 0.75\n"),
    (
        "heights",
        b"WAVE 0.5\nRAY 0 5 0 0\nRAY 0 4.9 0 0\nRAY 0 5.1 0 0\n",
    ),
    ("edges", b"WAVE 0.5\nRAY 0 11 0 0\nRAY 0 10 0 0\n"),
    (
        "steep",
        b"WAVE 0.5\nRAY 0 0 0 1.2\nRAY 0 0 0 0.894427190999916\n",
    ),
    ("fan", b"WAVE 0.5\nPUPIL 0 3\nFAN 0 0 1\nAIM 0 0 0 1\n"),
    ("grid", b"WAVE 0.5\nPUPIL 0 3\nSPOT 0 0 1\n"),
    ("coarse", b"WAVE 0.5\nRES 15\n"),
    ("twice", b"TOL CURV 1 0\nTOL CURV 1 0\n"),
    ("index", b"TOL INDX 1 0\n"),
];

const REPORTS: [Call; 15] = [
    ("trace plane flat slant", SLANT_ROWS),
    ("trace-json plane flat slant", SLANT_JSON),
    ("trace plane flat loose thick", BOX_ROWS),
    ("trace mirror flat slant", MIRROR_ROWS),
    ("trace plane flat fan", FAN_ROWS),
    ("trace plane flat grid", GRID_ROWS),
    ("trace rimmed flat heights", RIM_ROWS),
    ("trace-json rimmed flat heights", RIM_JSON),
    ("trace immersed flat steep", STEEP_ROWS),
    ("trace sphere flat edges", EDGE_ROWS),
    ("trace far flat axis", FAR_ROWS),
    ("trace farther flat axis", FARTHER_ROWS),
    ("trace-json farther flat axis", FARTHER_JSON),
    (
        "trace plane flat none",
        "trace surfaces 3 wave 5e-1 res 12 width 1e-3\ntotal rays 0 passes 0 vignetted 0 outside 0 tir 0 undecided 0 wide 0 lost 0\n",
    ),
    ("trace-json plane flat none", ""),
];

const ABSENCES: [Call; 6] = [
    ("trace gone flat slant", "absent zmx\n"),
    ("trace plane gone slant", "absent agf\n"),
    ("trace plane flat gone", "absent job\n"),
    ("trace plane flat slant gone", "absent tol\n"),
    ("trace immersed other slant gone", "absent tol\n"),
    ("trace-json plane flat slant gone", "absent tol\n"),
];

const REFUSALS: [Call; 13] = [
    (
        "trace crowd flat slant",
        "refused zmx too-many-surfaces line 66\n",
    ),
    (
        "trace plane orphan slant",
        "refused agf orphan-record line 1\n",
    ),
    ("trace plane flat coarse", "refused job range line 2\n"),
    ("trace plane flat slant twice", "refused tol twice line 2\n"),
    (
        "trace immersed other slant",
        "refused cross no-glass surface 0\n",
    ),
    (
        "trace mirror flat slant index",
        "refused cross mirror-index surface 1\n",
    ),
    (
        "trace crowd orphan slant",
        "refused zmx too-many-surfaces line 66\n",
    ),
    (
        "trace plane orphan coarse",
        "refused agf orphan-record line 1\n",
    ),
    (
        "trace plane flat coarse twice",
        "refused job range line 2\n",
    ),
    ("trace plane flat coarse gone", "refused job range line 2\n"),
    (
        "trace immersed other slant twice",
        "refused tol twice line 2\n",
    ),
    (
        "trace-json plane flat coarse twice",
        "refused job range line 2\n",
    ),
    (
        "trace-json immersed other slant",
        "refused cross no-glass surface 0\n",
    ),
];

fn tables<R: Abort, L: Ledger>(rt: &R, alloc: Global, blank: Blank) -> Result<(), Fail>
    requires name { blank.name ≡ L.name }
    requires parts { blank.parts ≡ L.parts }
    requires some { 0 < L.parts }
{
    let mut steps = Steps::<L>::start(blank);
    expect_all(rt, alloc, &SHELF, Status::Done, &REPORTS, &mut steps)?;
    expect_all(rt, alloc, &SHELF, Status::Absent, &ABSENCES, &mut steps)?;
    expect_all(rt, alloc, &SHELF, Status::Refused, &REFUSALS, &mut steps)
}

#[test]
fn rays_and_refusals(rt: HostRuntime) -> Result<(), Fail> {
    tables::<HostRuntime, Brand>(&rt, rt.alloc(), Blank::new(1))
}

fn failing_shelf<R: Abort, L: Ledger>(rt: &R, alloc: Global, blank: Blank) -> Result<(), Fail>
    requires name { blank.name ≡ L.name }
    requires parts { blank.parts ≡ L.parts }
    requires some { 0 < L.parts }
{
    let mut steps = Steps::<L>::start(blank);
    // Of each file, to choose it, and then to read its bytes and the end.
    let line = "trace plane flat slant";
    for (first, last, text) in [
        (1u64, 17u64, "read fault zmx\n"),
        (18, 25, "read fault agf\n"),
        (26, 31, "read fault job\n"),
    ] {
        let due = (Status::ReadFault, text);
        failing_reads(rt, alloc, &SHELF, line, (first, last), due, &mut steps)?;
    }
    let due = (Status::Done, SLANT_ROWS);
    failing_reads(rt, alloc, &SHELF, line, (32, 32), due, &mut steps)?;
    let line = "trace plane flat loose thick";
    let due = (Status::ReadFault, "read fault tol\n");
    failing_reads(rt, alloc, &SHELF, line, (33, 37), due, &mut steps)?;
    let due = (Status::Done, BOX_ROWS);
    failing_reads(rt, alloc, &SHELF, line, (38, 38), due, &mut steps)
}

#[test]
fn each_read_of_a_trace_fails_in_turn(rt: HostRuntime) -> Result<(), Fail> {
    failing_shelf::<HostRuntime, Brand>(&rt, rt.alloc(), Blank::new(1))
}

fn failing_sink<R: Abort, L: Ledger>(rt: &R, alloc: Global, blank: Blank) -> Result<(), Fail>
    requires name { blank.name ≡ L.name }
    requires parts { blank.parts ≡ L.parts }
    requires some { 0 < L.parts }
{
    let mut steps = Steps::<L>::start(blank);
    for (line, text, piece, calls) in [
        ("trace plane flat slant", SLANT_ROWS, 1usize, 460u64),
        ("trace plane flat slant", SLANT_ROWS, 7, 66),
        ("trace-json plane flat slant", SLANT_JSON, 7, 62),
        (
            "trace plane flat coarse",
            "refused job range line 2\n",
            7,
            4,
        ),
    ] {
        expect_failing_writes(rt, alloc, &SHELF, (line, text), (piece, calls), &mut steps)?;
    }
    Ok(())
}

#[test]
fn each_write_of_a_trace_fails_in_turn(rt: HostRuntime) -> Result<(), Fail> {
    failing_sink::<HostRuntime, Brand>(&rt, rt.alloc(), Blank::new(1))
}
