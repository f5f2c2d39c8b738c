//! The zone of a semi-diameter, and the power of ten that it is brought to.

ghost use Rattle.std.specs.Prelude.{◌≡◌, ℕ, ℤ, pos, ◌≤◌, ◌^◌, ◌≤ℤ◌, ◌<ℤ◌, neg_ℤ, IfSome};
ghost use Rattle.fixdec.specs.Decimal.{value};
ghost use Rattle.fixdec.specs.Frac.{◌*Q◌};
ghost use Rattle.fixdec.specs.Member.{units};
ghost use Rattle.fixdec.specs.Rounding.{IsCeil};
ghost use Rattle.fixdec.specs.Zone.{zone, zone_span, eleven_tenths, IsZone, norm, least_power, IsNorm};

use crate::scale::ends;
use fixdec::dec::Dec;
use fixdec::span::Span;
use fixdec::step::Step;

/// 1000 in units of 10^-9.
const ZONE_LIMIT: i128 = 1_000_000_000_000;

/// The zone of a semi-diameter: 1.1 times it, rounded up to a multiple of 10^-9, as a span of one
/// number at scale 9. None where the semi-diameter isn't above 0 or the zone is above 1000.
pub fn zone_of(semi: &Dec) -> Option<Span>
    ensures value { result ≡ zone_span semi.now }
    // The zone is 1.1 times the semi-diameter, rounded up.
    ensures rounded { IsCeil (value semi.now *Q eleven_tenths *Q units 9) (zone semi.now) }
    ensures range { IfSome result (λ zone. IsZone zone) }
{
    if semi.mant <= 0 {
        return None;
    }
    let Step::Val(zone) = ends(11 * semi.mant, semi.exp + 8) else {
        return None;
    };
    if zone.hi > ZONE_LIMIT {
        return None;
    }
    Some(Span {
        lo: zone.hi,
        hi: zone.hi,
    })
}

/// The least whole number D from -6 to 6 with `zone^2 <= 10^D`. The zone is one that `zone_of`
/// gives.
pub fn norm_of(zone: &Span) -> i32
    requires { IsZone zone.now }
    ensures value { result ≡ norm zone.now.hi }
    ensures least { IsNorm zone.now.hi result }
{
    power_above(zone.hi.unsigned_abs()) as i32 - 18
}

/// The least power of ten from 12 to 24 that `zone^2` doesn't pass, in units of 10^-9.
fn power_above(zone: u128) -> u32
    requires { zone ≤ 10 ^ 12 }
    ensures value { result ≡ least_power zone 12 12 }
    ensures low { 12 ≤ result }
    ensures high { result ≤ 24 }
{
    for k in 12..24 {
        if zone * zone <= 10u128.pow(k) {
            return k;
        }
    }
    24
}
