//! What one lens file says, as an independent program of the same rules reads it.

use crate::read::read_zmx;
use crate::tags::Tags;
use fixdec::dec::Dec;
use lensmodel::fault::{TextFault, ZmxFault};
use lensmodel::surface::{Surface, SurfaceKind};
use records::word::is_word;
use std::test::Fail;

const ZERO: Dec = Dec { mant: 0, exp: 0 };

/// A plate with an aspheric front. A CURV line before the first surface and a wavelength 25 are no
/// fault.
const PLATE: &[u8] =
    b"VERS 140124 258\nMODE SEQ\nNOTE 0 first\nWAVM 1 0.58756180 1\nPWAV 2\nWAVM 2 .5461 1\nWAVM 25 9 1\nCURV x\nSURF 0\n  DISZ INFINITY\nSURF 1\n  STOP\n  TYPE EVENASPH\n  CURV 2.5E-2 0\n  COAT AR\n  PARM 2 1e-6\n  PARM 0 9\n  DISZ 3\n  DISZ 4.50\n  GLAS N-BK7 0 0\n  CONI -1\n  DIAM 6.5 1 0\nSURF 2\n  NOTE 1\n  COMM the image\n  DIAM 7 0\nNOTE 2\n";

#[test]
fn lens_as_a_whole(rt: HostRuntime) -> Result<(), Fail> {
    let lens = read_zmx(rt.alloc(), PLATE)?.lens;
    assert_eq!(rt; lens.surfaces.len(), 3);
    assert_eq!(rt; lens.stop, 1);
    assert_eq!(rt; lens.primary, 2);
    assert_eq!(rt; lens.waves.len(), 24);
    assert_eq!(rt;
        lens.waves[0],
        Some(Dec {
            mant: 5875618,
            exp: -7
        })
    );
    assert_eq!(rt;
        lens.waves[1],
        Some(Dec {
            mant: 5461,
            exp: -4
        })
    );
    assert_eq!(rt; lens.waves[2], None);
    Ok(())
}

/// Whether the glass behind a surface has the name.
fn is_before(surface: &Surface, glass: &[u8]) -> bool {
    match &surface.glass {
        Some(name) => is_word(name.as_slice(), glass),
        None => false,
    }
}

#[test]
fn fields_of_a_surface(rt: HostRuntime) -> Result<(), Fail> {
    let lens = read_zmx(rt.alloc(), PLATE)?.lens;
    assert_eq!(rt; lens.surfaces.len(), 3);
    let front = &lens.surfaces[1];
    assert_eq!(rt; front.kind, SurfaceKind::EvenAsph);
    assert_eq!(rt; front.curv, Dec { mant: 25, exp: -3 });
    assert_eq!(rt; front.conic, Dec { mant: -1, exp: 0 });
    assert_eq!(rt; front.thick, Some(Dec { mant: 45, exp: -1 }));
    assert_eq!(rt; front.semi, Some(Dec { mant: 65, exp: -1 }));
    assert!(rt; front.rim);
    assert!(rt; !front.mirror);
    assert_eq!(rt; front.a1, ZERO);
    assert_eq!(rt; front.a2, Dec { mant: 1, exp: -6 });
    assert_eq!(rt; front.a3, ZERO);
    assert!(rt; is_before(front, b"N-BK7"));
    Ok(())
}

#[test]
fn surfaces_by_default(rt: HostRuntime) -> Result<(), Fail> {
    let lens = read_zmx(rt.alloc(), PLATE)?.lens;
    assert_eq!(rt; lens.surfaces.len(), 3);
    let object = &lens.surfaces[0];
    assert_eq!(rt; object.kind, SurfaceKind::Standard);
    assert_eq!(rt; object.curv, ZERO);
    assert_eq!(rt; object.thick, None);
    assert_eq!(rt; object.semi, None);
    assert!(rt; object.glass.is_none());
    let image = &lens.surfaces[2];
    assert_eq!(rt; image.thick, Some(ZERO));
    assert_eq!(rt; image.semi, Some(Dec { mant: 7, exp: 0 }));
    assert!(rt; !image.rim);
    Ok(())
}

/// Whether the tag of a number is the word, with so many lines.
fn is_tag(tags: &Tags, i: usize, word: &[u8], lines: u64) -> bool {
    if i >= tags.count() {
        return false;
    }
    let (tag, count) = tags.at(i);
    is_word(tag.as_slice(), word) && count == lines
}

#[test]
fn unused_tags(rt: HostRuntime) -> Result<(), Fail> {
    let unused = read_zmx(rt.alloc(), PLATE)?.unused;
    assert_eq!(rt; unused.count(), 4);
    assert!(rt; is_tag(&unused, 0, b"VERS", 1));
    assert!(rt; is_tag(&unused, 1, b"NOTE", 3));
    assert!(rt; is_tag(&unused, 2, b"CURV", 1));
    assert!(rt; is_tag(&unused, 3, b"COAT", 1));
    Ok(())
}

#[test]
fn faults(rt: HostRuntime) {
    let of = |bytes| read_zmx(rt.alloc(), bytes).err();
    assert_eq!(rt;
        of(b"SURF 0\nSURF 1\n  CURV x\n"),
        Some(ZmxFault::BadNumber { line: 3, word: 2 })
    );
    assert_eq!(rt; of(b"SURF 0\nSURF 1\nSURF 2\n"), Some(ZmxFault::StopCount));
}

/// Three planes. The tags VERS, UNIT and HIDE aren't used.
const PLANES: &[u8] =
    b"VERS 140124 0\r\nMODE SEQ\r\nUNIT MM X W X CM MR CPMM\r\nWAVM 1 0.55 1\r\nPWAV 1\r\nSURF 0\r\n  DISZ INFINITY\r\nSURF 1\r\n  STOP\r\n  COMM front\r\n  HIDE 0 0 0\r\n  TYPE STANDARD\r\n  CURV 0.0 0 0 0 0 \"\"\r\n  DISZ 4\r\n  DIAM 5 0 0 0 1 \"\"\r\nSURF 2\r\n  TYPE STANDARD\r\n";

const FEW: Option<ZmxFault> = Some(ZmxFault::TooFewSurfaces);

/// Why a front of `PLANES` in UTF-16 is refused, from each length in bytes on. It ends inside a record
/// that lacks a word, or whose word is cut off, or before the last surface.
const FRONTS: &[(usize, Option<ZmxFault>)] = &[
    (0, FEW),
    (40, Some(ZmxFault::MissingWord { line: 2 })),
    (44, FEW),
    (112, Some(ZmxFault::MissingWord { line: 4 })),
    (120, FEW),
    (142, Some(ZmxFault::MissingWord { line: 5 })),
    (146, FEW),
    (158, Some(ZmxFault::MissingWord { line: 6 })),
    (162, FEW),
    (178, Some(ZmxFault::MissingWord { line: 7 })),
    (182, Some(ZmxFault::BadNumber { line: 7, word: 2 })),
    (196, FEW),
    (208, Some(ZmxFault::MissingWord { line: 8 })),
    (212, FEW),
    (300, Some(ZmxFault::MissingWord { line: 12 })),
    (304, Some(ZmxFault::SurfaceType { line: 12 })),
    (318, FEW),
    (334, Some(ZmxFault::MissingWord { line: 13 })),
    (338, FEW),
    (380, Some(ZmxFault::MissingWord { line: 14 })),
    (384, FEW),
    (400, Some(ZmxFault::MissingWord { line: 15 })),
    (404, FEW),
    (438, Some(ZmxFault::MissingWord { line: 16 })),
    (442, None),
    (458, Some(ZmxFault::MissingWord { line: 17 })),
    (462, Some(ZmxFault::SurfaceType { line: 17 })),
    (476, None),
];

/// Why a front of so many bytes is refused: for half a unit, behind the mark of UTF-16, and else by the
/// table.
fn fault_of_front(length: usize) -> Option<ZmxFault> {
    if length > 2 && length % 2 == 1 {
        return Some(ZmxFault::Text(TextFault::OddByte));
    }
    let mut fault = FEW;
    for (from, next) in FRONTS {
        if *from <= length {
            fault = *next;
        }
    }
    fault
}

#[test]
fn every_front_of_a_wide_file(rt: HostRuntime) -> Result<(), Fail> {
    let mut file = vec![in rt.alloc(); 0xFFu8, 0xFE]?;
    for byte in PLANES {
        file.push(*byte)?;
        file.push(0)?;
    }
    for length in 0..=file.len() {
        assert_eq!(rt;
            read_zmx(rt.alloc(), &file[..length]).err(),
            fault_of_front(length),
            "at {length}"
        );
    }
    Ok(())
}
