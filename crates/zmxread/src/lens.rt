//! What each record of a whole lens changes.

ghost use Rattle.std.specs.Prelude.{◌≡◌, ◌++◌, ◌∷◌, [], ◌<◌, Some, None, length, IfOk, IfErr, OnOk};
ghost use Rattle.lensmodel.specs.Files.Lens.{primary_in};
ghost use Rattle.lensmodel.specs.Files.LensFaults.{MODE_fault, SURF_fault, PWAV_fault, indexed_fault};
ghost use Rattle.lensmodel.specs.Setup.Values.{plane};
ghost use Rattle.zmxread.specs.Lens.{no_waves, with_WAVM, with_wavelength};

use crate::numbers::{index, number};
use arrayvec::ArrayVec;
use fixdec::dec::Dec;
use lensmodel::fault::ZmxFault;
use lensmodel::surface::{Surface, SurfaceKind};
use records::line::Line;
use records::word::is_word;

/// The wavelengths by their numbers less 1.
pub type Waves = ArrayVec<Option<Dec>, 24>;

/// Takes a MODE record.
pub fn check_mode(line: &Line<'_>, at: u32) -> Result<(), ZmxFault>
    requires { 1 < length line.now }
    ensures sound { OnOk result (MODE_fault at line.now ≡ None) }
    ensures fault { IfErr result (λ f. MODE_fault at line.now ≡ Some f) }
{
    if is_word(line.known_word(1), b"NSC") {
        return Err(ZmxFault::NotSequential { line: at });
    }
    Ok(())
}

/// A plane in air, of thickness 0, without a semi-diameter.
fn plain_surface() -> Surface
    ensures { result ≡ plane }
{
    let zero = Dec { mant: 0, exp: 0 };
    Surface {
        kind: SurfaceKind::Standard,
        curv: zero,
        conic: zero,
        thick: Some(zero),
        glass: None,
        semi: None,
        rim: false,
        mirror: false,
        a1: zero,
        a2: zero,
        a3: zero,
        a4: zero,
        a5: zero,
        a6: zero,
        a7: zero,
        a8: zero,
    }
}

/// Takes a SURF record, which begins the next surface.
pub fn begin_surface(
    surfaces: &mut ArrayVec<Surface, 64>,
    line: &Line<'_>,
    at: u32,
) -> Result<(), ZmxFault>
    requires { 1 < length line.now }
    ensures surfaces { OnOk result (surfaces.new.items ≡ surfaces.old.items ++ plane ∷ []) }
    ensures sound { OnOk result (SURF_fault at (length surfaces.old.items) line.now ≡ None) }
    ensures fault { IfErr result
        (λ f. SURF_fault at (length surfaces.old.items) line.now ≡ Some f) }
{
    let number = index(line, at, 1)?;
    if number as usize != surfaces.len() {
        return Err(ZmxFault::SurfaceOrder { line: at });
    }
    if surfaces.is_full() {
        return Err(ZmxFault::TooManySurfaces { line: at });
    }
    surfaces.push(plain_surface());
    Ok(())
}

/// Places for 24 wavelengths, none of which is given.
pub fn no_wavelengths() -> Waves
    ensures { result.items ≡ no_waves }
{
    ArrayVec::from([None; 24])
}

/// Takes a WAVM record.
pub fn set_wavelength(waves: &mut Waves, line: &Line<'_>, at: u32) -> Result<(), ZmxFault>
    requires { 2 < length line.now }
    ensures waves { OnOk result (waves.new.items ≡ with_WAVM line.now waves.old.items) }
    ensures sound { OnOk result (indexed_fault at line.now ≡ None) }
    ensures fault { IfErr result (λ f. indexed_fault at line.now ≡ Some f) }
{
    let i = index(line, at, 1)?;
    let wave = number(line, at, 2)?;
    put_wavelength(waves, i, wave);
    Ok(())
}

/// Puts a wavelength in its place, where there is one of its number.
fn put_wavelength(waves: &mut Waves, i: u32, wave: Dec)
    ensures { waves.new.items ≡ with_wavelength i wave waves.old.items }
{
    if i == 0 {
        return;
    }
    if let Some(place) = waves.get_mut(i as usize - 1) {
        *place = Some(wave);
    }
}

/// The number of the primary wavelength, of a PWAV record.
pub fn primary(line: &Line<'_>, at: u32) -> Result<u32, ZmxFault>
    requires { 1 < length line.now }
    ensures number { IfOk result (λ i. i ≡ primary_in (Some line.now)) }
    ensures sound { OnOk result (PWAV_fault at line.now ≡ None) }
    ensures fault { IfErr result (λ f. PWAV_fault at line.now ≡ Some f) }
{
    index(line, at, 1)
}
