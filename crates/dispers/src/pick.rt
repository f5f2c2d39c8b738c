//! The glass of a name, where it can be used at a wavelength.

ghost use Rattle.std.specs.Prelude.{◌≡◌, ◌⊎◌, ℤ, pos, negsuc, ◌<ℤ◌, ◌≤ℤ◌, IfOk};
ghost use Rattle.fixdec.specs.Frac.{Frac};
ghost use Rattle.fixdec.specs.Member.{IsMember};
ghost use Rattle.lensmodel.specs.Files.Catalogue as catalogue;
ghost use Rattle.lensmodel.specs.Equations.Dispersion.{IsGlassIndex, IsIndex};
ghost use Rattle.lensmodel.specs.Files.Picking as picking;
ghost use Rattle.lensmodel.specs.Equations.Residual.{residual};
ghost use Rattle.dispers.specs.Limits.{IsFrom1To5};

use crate::index::index;
use crate::order::is_below;
use enclose::arith::Arith;
use enclose::iv::Iv;
use exactdec::scale;
use fixdec::dec::Dec;
use fixdec::span::Span;
use fixdec::step::Step;
use glassbook::book::GlassBook;
use lensmodel::fault::CrossFault;
use lensmodel::glass::{Glass, Medium};
use lensmodel::name::Name;
use std::marker::Model;

/// The scale at which an index is judged.
const INDEX_SCALE: u32 = 12;

/// One, in units of the scale at which an index is judged.
const ONE: i128 = 1_000_000_000_000;

/// A glass of a book, with its index at scale 12.
#[derive(Drop)]
pub struct Picked<'a> {
    /// The glass.
    pub glass: &'a Glass,
    /// Its index, at scale 12.
    pub index: Span,
}

impl<'a> Model for Picked<'a> {
    ghost use Rattle.lensmodel.specs.Files.Picking as picking;

    ghost Value = { picking.Picked };

    ghost view = { λ p. record { glass = p.glass.now; index = p.index } };
}

/// The glass of a name, compared after ASCII upper-casing, with its index at a wavelength in
/// micrometres above 0. It is refused, as surface 0, by the first of these that holds: the book has
/// no such glass, its formula isn't 1 or 2, the wavelength is outside its range, or its index at
/// scale 12 isn't enclosed between 1 and 5.
pub fn find<'a>(book: &'a GlassBook, name: &Name, wave: &Dec) -> Result<Picked<'a>, CrossFault>
    requires { pos 0 <ℤ wave.now.mant }
    ensures exact { result ≡ picking.picked book.now name.now.items wave.now }

    // Each index of the glass within 10^-12 lies in the printed interval, which is from 1 to 5.
    ensures holds { IfOk result
        (λ p. (n : Frac) → IsGlassIndex (residual 12) p.glass wave.now n → IsMember 12 p.index n) }
{
    match book.find(name) {
        Some(glass) => usable(glass, wave),
        None => Err(CrossFault::NoGlass { surface: 0 }),
    }
}

/// The medium of the glass that `find` gives, refused as there.
pub fn pick(book: &GlassBook, name: &Name, wave: &Dec) -> Result<Medium, CrossFault>
    requires { pos 0 <ℤ wave.now.mant }
    ensures exact { result
        ≡ picking.picked_medium (picking.picked book.now name.now.items wave.now) }

    // Each index of the medium within 10^-12 is from 1 to 5.
    ensures sound { IfOk result
        (λ m. (n : Frac) → IsIndex (residual 12) m wave.now n → IsFrom1To5 n) }
{
    match find(book, name, wave) {
        Ok(picked) => Ok(Medium::Of(picked.glass.copy())),
        Err(fault) => Err(fault),
    }
}

/// A glass with its index, where it can be used at a wavelength.
fn usable<'a>(glass: &'a Glass, wave: &Dec) -> Result<Picked<'a>, CrossFault>
    ensures { result ≡ picking.usable glass.now wave.now }
{
    if !is_used(glass.formula) {
        return Err(CrossFault::Formula { surface: 0 });
    }
    if is_under(wave, &glass.low) || is_over(wave, &glass.high) {
        return Err(CrossFault::WaveRange { surface: 0 });
    }
    with_index(glass, index_at_12(glass, wave))
}

/// A glass with its index, where it has one from 1 to 5.
fn with_index(glass: &Glass, index: Step<Iv<12>>) -> Result<Picked<'_>, CrossFault>
    ensures { result ≡ picking.with_index glass.now index }
{
    match index {
        Step::Val(n) => with_ends(glass, n.hull()),
        Step::Empty | Step::Lost(_) => Err(CrossFault::BadIndex { surface: 0 }),
    }
}

/// A glass with its index, where that is from 1 to 5.
fn with_ends(glass: &Glass, index: Span) -> Result<Picked<'_>, CrossFault>
    ensures { result ≡ picking.with_index glass.now (Step.Val index) }
{
    if is_from_1_to_5(index) {
        Ok(Picked { glass, index })
    } else {
        Err(CrossFault::BadIndex { surface: 0 })
    }
}

/// Whether an index at scale 12 lies from 1 to 5.
pub(crate) fn is_from_1_to_5(n: Span) -> bool
    ensures { result ≡ picking.is_from_1_to_5 n }
{
    ONE <= n.lo && n.hi <= 5 * ONE
}

/// Whether a formula is one that is used.
pub(crate) fn is_used(formula: u32) -> bool
    ensures { result ≡ catalogue.is_used formula }
{
    formula == 1 || formula == 2
}

/// Whether a wavelength is below the least, where there is one.
pub(crate) fn is_under(wave: &Dec, low: &Option<Dec>) -> bool
    ensures { result ≡ picking.is_under wave.now low.now }
{
    match low {
        None => false,
        Some(low) => is_below(wave, low),
    }
}

/// Whether a wavelength is above the greatest, where there is one.
pub(crate) fn is_over(wave: &Dec, high: &Option<Dec>) -> bool
    ensures { result ≡ picking.is_over wave.now high.now }
{
    match high {
        None => false,
        Some(high) => is_below(high, wave),
    }
}

/// The index of a glass of formula 1 or 2 at a wavelength in micrometres, at scale 12, with the
/// residual one unit.
fn index_at_12(glass: &Glass, wave: &Dec) -> Step<Iv<12>>
    requires { (glass.now.formula ≡ 1) ⊎ (glass.now.formula ≡ 2) }
    ensures { result ≡ picking.index_at_12 glass.now wave.now }
{
    match scale::span(wave, INDEX_SCALE) {
        Step::Val(span) => index::<Iv<12>>(&Medium::Of(glass.copy()), span, 1),
        Step::Empty => Step::Empty,
        Step::Lost(why) => Step::Lost(why),
    }
}

#[cfg(test)]
mod tests {
    use super::*;
    use arrayvec::ArrayVec;
    use std::alloc::Global;
    use std::test::Fail;

    fn dec(mant: i64, exp: i32) -> Dec
        requires low { negsuc 107 ≤ℤ exp }
        requires high { exp ≤ℤ pos 78 }
        requires zero { mant ≡ pos 0 → exp ≡ pos 0 }
        ensures { result.mant ≡ mant }
    {
        Dec {
            mant: i128::from(mant),
            exp,
        }
    }

    fn name(text: &str) -> Name {
        let mut units: Name = ArrayVec::new();
        for byte in text.as_bytes() {
            let _ = units.try_push(u16::from(*byte));
        }
        units
    }

    /// A glass with two coefficients and no range.
    fn glass(text: &str, formula: u32, c0: Dec, c1: Dec) -> Glass
        ensures { result.formula ≡ formula }
    {
        let zero = Dec::default();
        Glass {
            name: name(text),
            formula,
            c0,
            c1,
            c2: zero,
            c3: zero,
            c4: zero,
            c5: zero,
            low: None,
            high: None,
        }
    }

    /// A crown glass that is used from 0.3 to 2.5 micrometres.
    fn crown() -> Glass
        ensures { (result.formula ≡ 1) ⊎ (result.formula ≡ 2) }
    {
        Glass {
            c2: dec(231792344, -9),
            c3: dec(200179144, -10),
            c4: dec(101046945, -8),
            c5: dec(103560653, -6),
            low: Some(dec(3, -1)),
            high: Some(dec(25, -1)),
            ..glass("N-BK7", 2, dec(103961212, -8), dec(600069867, -11))
        }
    }

    /// A flat glass, whose index is the root of `square`.
    fn flat(text: &str, square: Dec) -> Glass {
        glass(text, 1, square, Dec::default())
    }

    fn book(alloc: Global) -> Result<GlassBook, Fail> {
        let mut book = GlassBook::new(alloc);
        book.add(crown())?;
        book.add(glass("POLE", 2, dec(1, 0), dec(25, -2)))?;
        book.add(flat("FIVE", dec(25, 0)))?;
        book.add(flat("UNDER-FIVE", dec(2_499_999_999_999, -11)))?;
        book.add(flat("ONE", dec(1, 0)))?;
        book.add(flat("OVER-ONE", dec(100_000_000_001, -11)))?;
        book.add(Glass {
            formula: 3,
            low: Some(dec(6, -1)),
            ..flat("HERZBERGER", dec(225, -2))
        })?;
        Ok(book)
    }

    /// Why a glass can't be picked at a wavelength; None where it is.
    fn fault(book: &GlassBook, text: &str, wave: Dec) -> Option<CrossFault>
        requires { pos 0 <ℤ wave.mant }
    {
        pick(book, &name(text), &wave).err()
    }

    #[test]
    fn crown_glass_in_its_range(rt: HostRuntime) -> Result<(), Fail> {
        let book = book(rt.alloc())?;
        let range = Some(CrossFault::WaveRange { surface: 0 });
        assert_eq!(rt;
            pick(&book, &name("n-bk7"), &dec(5875618, -7)),
            Ok(Medium::Of(crown()))
        );
        assert_eq!(rt; fault(&book, "N-BK7", dec(3, -1)), None);
        assert_eq!(rt; fault(&book, "N-BK7", dec(300, -3)), None);
        assert_eq!(rt; fault(&book, "N-BK7", dec(29999999, -8)), range);
        assert_eq!(rt; fault(&book, "N-BK7", dec(1, -30)), range);
        assert_eq!(rt; fault(&book, "N-BK7", dec(25, -1)), None);
        assert_eq!(rt; fault(&book, "N-BK7", dec(25000001, -7)), range);
        assert_eq!(rt; fault(&book, "N-BK7", dec(1, 30)), range);
        Ok(())
    }

    #[test]
    fn refusals(rt: HostRuntime) -> Result<(), Fail> {
        let book = book(rt.alloc())?;
        let bad = Some(CrossFault::BadIndex { surface: 0 });
        let unknown = Some(CrossFault::NoGlass { surface: 0 });
        let formula = Some(CrossFault::Formula { surface: 0 });
        assert_eq!(rt; fault(&book, "N-BK8", dec(5, -1)), unknown);
        assert_eq!(rt; fault(&book, "HERZBERGER", dec(5, -1)), formula);
        assert_eq!(rt; fault(&book, "POLE", dec(5, -1)), bad);
        assert_eq!(rt; fault(&book, "FIVE", dec(5, -1)), bad);
        assert_eq!(rt; fault(&book, "UNDER-FIVE", dec(5, -1)), None);
        assert_eq!(rt; fault(&book, "ONE", dec(5, -1)), bad);
        assert_eq!(rt; fault(&book, "OVER-ONE", dec(5, -1)), None);
        Ok(())
    }

    #[test]
    fn index_of_the_crown_glass(rt: HostRuntime) -> Result<(), Fail> {
        let Step::Val(n) = index_at_12(&crown(), &dec(5875618, -7)) else {
            return Err("the crown glass has no index".into());
        };
        assert_eq!(rt; n.hull().lo, 1_516_800_034_498);
        assert_eq!(rt; n.hull().hi, 1_516_800_034_504);
        Ok(())
    }
}
