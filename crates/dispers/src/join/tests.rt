//! Which of two causes refuses a setup.

ghost use Rattle.std.specs.Prelude.{◌≡◌, length, IsTrue};
ghost use Rattle.lensmodel.specs.Setup.Ranges.{is_wave};
ghost use Rattle.lensmodel.specs.Setup.Values as values;
ghost use Rattle.lensmodel.specs.Setup.WellFormed.{IsBox, IsInRange, IsSound, IsWrittenIf};

use super::*;
use arrayvec::ArrayVec;
use fixdec::dec::Dec;
use lensmodel::glass::Glass;
use lensmodel::job::Asks;
use lensmodel::name::Name;
use lensmodel::surface::{Surface, SurfaceKind};
use lensmodel::tolerance::{Tol, TolKind};
use std::alloc::Global;
use std::test::Fail;

const ZERO: Dec = Dec { mant: 0, exp: 0 };

fn name(text: &str) -> Name {
    let mut units: Name = ArrayVec::new();
    for byte in text.as_bytes() {
        let _ = units.try_push(u16::from(*byte));
    }
    units
}

/// A plane before a glass, before air where the text is empty.
fn plane(text: &str, mirror: bool) -> Surface
    ensures { result ≡ record values.plane { glass = result.glass; mirror = mirror } }
{
    Surface {
        kind: SurfaceKind::Standard,
        curv: ZERO,
        conic: ZERO,
        thick: Some(ZERO),
        glass: if text.is_empty() {
            None
        } else {
            Some(name(text))
        },
        semi: None,
        rim: false,
        mirror,
        a1: ZERO,
        a2: ZERO,
        a3: ZERO,
        a4: ZERO,
        a5: ZERO,
        a6: ZERO,
        a7: ZERO,
        a8: ZERO,
    }
}

/// Three planes: the object, one more before a glass or a mirror, and the image. The second is the
/// stop, and the first wavelength the primary one.
fn lens(object: &str, front: &str, mirror: bool, wave: Option<Dec>) -> Prescription
    requires { IsWrittenIf wave }
    ensures sound { IsSound result }
    ensures image { length result.surfaces.items ≡ 3 }
{
    let mut surfaces: ArrayVec<Surface, 64> = ArrayVec::new();
    surfaces.push(plane(object, false));
    surfaces.push(plane(front, mirror));
    surfaces.push(plane("", false));
    let mut waves: ArrayVec<Option<Dec>, 24> = ArrayVec::new();
    waves.push(wave);
    Prescription {
        surfaces,
        stop: 1,
        waves,
        primary: 1,
    }
}

fn job(alloc: Global, wave: Option<Dec>) -> Job
    requires { IsTrue (is_wave wave) }
    ensures { IsInRange result }
{
    Job {
        wave,
        res: 12,
        width: Dec { mant: 1, exp: -3 },
        asks: Asks::from_vec(Vec::new(alloc)),
    }
}

/// A box of one tolerance, 0, on the index behind surface 1, or none.
fn box_if(boxed: bool) -> Option<TolBox>
    ensures { IsBox 2 (values.tolerances result) }
{
    if !boxed {
        return None;
    }
    let mut list: ArrayVec<Tol, 32> = ArrayVec::new();
    list.push(Tol {
        kind: TolKind::Indx,
        surface: 1,
        delta: ZERO,
    });
    Some(TolBox { list })
}

/// A glass of a formula whose index squared is `square` at every wavelength from `low` on.
fn glass(text: &str, formula: u32, square: Dec, low: Option<Dec>) -> Glass {
    Glass {
        name: name(text),
        formula,
        c0: square,
        c1: ZERO,
        c2: ZERO,
        c3: ZERO,
        c4: ZERO,
        c5: ZERO,
        low,
        high: None,
    }
}

/// FLAT has the index 1.5, GREAT 6, FAR is used from 1 micrometre on, and ODD has the formula 3.
fn book(alloc: Global) -> Result<GlassBook, Fail> {
    let mut book = GlassBook::new(alloc);
    book.add(glass("FLAT", 1, Dec { mant: 225, exp: -2 }, None))?;
    book.add(glass("GREAT", 1, Dec { mant: 36, exp: 0 }, None))?;
    book.add(glass(
        "FAR",
        1,
        Dec { mant: 225, exp: -2 },
        Some(Dec { mant: 1, exp: 0 }),
    ))?;
    book.add(glass("ODD", 3, Dec { mant: 225, exp: -2 }, None))?;
    Ok(book)
}

/// Why glasses behind the object and behind surface 1 are refused at half a micrometre.
fn fault(book: &GlassBook, job: &Job, object: &str, front: &str) -> Option<CrossFault>
    requires { IsInRange job.now }
{
    let wave = Some(Dec { mant: 5, exp: -1 });
    join(lens(object, front, false, wave), book, job, None).err()
}

#[test]
fn each_check_comes_before_the_next(rt: HostRuntime) -> Result<(), Fail> {
    let book = book(rt.alloc())?;
    let job = job(rt.alloc(), None);
    assert_eq!(rt;
        fault(&book, &job, "ODD", "NONE"),
        Some(CrossFault::NoGlass { surface: 1 })
    );
    assert_eq!(rt;
        fault(&book, &job, "FAR", "ODD"),
        Some(CrossFault::Formula { surface: 1 })
    );
    assert_eq!(rt;
        fault(&book, &job, "GREAT", "FAR"),
        Some(CrossFault::WaveRange { surface: 1 })
    );
    assert_eq!(rt;
        fault(&book, &job, "FLAT", "GREAT"),
        Some(CrossFault::BadIndex { surface: 1 })
    );
    assert_eq!(rt;
        fault(&book, &job, "GREAT", "GREAT"),
        Some(CrossFault::BadIndex { surface: 0 })
    );
    assert_eq!(rt; fault(&book, &job, "flat", ""), None);
    Ok(())
}

#[test]
fn without_a_wavelength(rt: HostRuntime) -> Result<(), Fail> {
    let book = book(rt.alloc())?;
    let job = job(rt.alloc(), None);
    let odd = join(lens("FAR", "ODD", false, None), &book, &job, None).err();
    assert_eq!(rt; odd, Some(CrossFault::Formula { surface: 1 }));
    let far = join(lens("FAR", "GREAT", false, None), &book, &job, None).err();
    assert_eq!(rt; far, Some(CrossFault::NoWave));
    Ok(())
}

#[test]
fn tolerance_on_the_index_of_a_mirror(rt: HostRuntime) -> Result<(), Fail> {
    let book = book(rt.alloc())?;
    let job = job(rt.alloc(), Some(Dec { mant: 5, exp: -1 }));
    let mirror = join(lens("FLAT", "", true, None), &book, &job, box_if(true)).err();
    assert_eq!(rt; mirror, Some(CrossFault::MirrorIndex { surface: 1 }));
    let great = join(lens("GREAT", "", true, None), &book, &job, box_if(true)).err();
    assert_eq!(rt; great, Some(CrossFault::BadIndex { surface: 0 }));
    let free = join(lens("FLAT", "", true, None), &book, &job, box_if(false)).err();
    assert_eq!(rt; free, None);
    let glass = join(lens("", "FLAT", false, None), &book, &job, box_if(true)).err();
    assert_eq!(rt; glass, None);
    Ok(())
}
