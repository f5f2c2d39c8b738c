//! The refractive index of a medium.

ghost use Rattle.std.specs.Prelude.{◌≡◌, ℤ, pos, negsuc, ◌≤◌, ◌≤ℤ◌};
ghost use Rattle.fixdec.specs.Ends.{InCap};
ghost use Rattle.lensmodel.specs.Equations.Dispersion.{IsKnown};
ghost use Rattle.lensmodel.specs.Rows.Index as rows;
ghost use Rattle.sagform.specs.IndexLaws.{EnclosesIndex};

use enclose::arith::Arith;
use fixdec::span::Span;
use fixdec::step::Step;
use lensmodel::glass::Medium;
use sagform::index as rows_of;

/// The index of a medium at a wavelength, whose span in micrometres is `wave` at T's scale. The
/// square of the index is widened by `e` units before its root, `e` from 0 to the cap. The medium
/// is air, or a glass of formula 1 or 2.
pub fn index<T: Arith>(m: &Medium, wave: Span, e: i128) -> Step<T>
    requires scale { T.SCALE ≤ 15 }
    requires low { pos 0 ≤ℤ e }
    requires high { InCap e }
    requires known { IsKnown m.now }
    ensures exact { result ≡ rows.index_rows T.ops T.SCALE m.now wave e }

    // Every index of the medium is a member, and where there is one the answer isn't Empty.
    ensures encloses { EnclosesIndex T.SCALE T.member m.now wave e result }
{
    rows_of::index(m, wave, e)
}

#[cfg(test)]
mod tests {
    use super::*;
    use arrayvec::ArrayVec;
    use enclose::iv::Iv;
    use fixdec::dec::Dec;
    use lensmodel::glass::Glass;
    use std::test::Fail;

    /// The ends of an index at a wavelength from 587,561 to 587,562 millionths of a micrometre.
    fn ends(m: &Medium) -> (i128, i128)
        requires { IsKnown m.now }
    {
        let wave = Span {
            lo: 587_561,
            hi: 587_562,
        };
        match index::<Iv<6>>(m, wave, 1) {
            Step::Val(n) => (n.hull().lo, n.hull().hi),
            _ => (-1, -1),
        }
    }

    fn dec(mant: i64, exp: i32) -> Dec
        requires low { negsuc 107 ≤ℤ exp }
        requires high { exp ≤ℤ pos 78 }
        requires zero { mant ≡ pos 0 → exp ≡ pos 0 }
    {
        Dec {
            mant: i128::from(mant),
            exp,
        }
    }

    #[test]
    fn of_air_and_of_a_crown_glass(rt: HostRuntime) -> Result<(), Fail> {
        let crown = Medium::Of(Glass {
            name: ArrayVec::new(),
            formula: 2,
            c0: dec(103961212, -8),
            c1: dec(600069867, -11),
            c2: dec(231792344, -9),
            c3: dec(200179144, -10),
            c4: dec(101046945, -8),
            c5: dec(103560653, -6),
            low: None,
            high: None,
        });
        assert_eq!(rt; ends(&crown), (1_516_793, 1_516_807));
        assert_eq!(rt; ends(&Medium::Air), (1_000_000, 1_000_000));
        Ok(())
    }
}
