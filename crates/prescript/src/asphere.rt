//! Even aspheres: the zone, the power of ten that it is brought to, and the coefficients there.

ghost use Rattle.std.specs.Prelude.{◌≡◌, ℕ, ℤ, pos, ◌≤◌, ◌≤ℤ◌, ◌*ℤ◌, neg_ℤ, IsSome, IfSome};
ghost use Rattle.fixdec.specs.Decimal.{value, ten_power};
ghost use Rattle.fixdec.specs.Frac.{◌≈◌, ◌*Q◌};
ghost use Rattle.fixdec.specs.Word.{IsReadable};
ghost use Rattle.fixdec.specs.Zone.{IsZone, IsNorm};
ghost use Rattle.lensmodel.specs.Files.Causes.{first_fault};
ghost use Rattle.lensmodel.specs.Setup.WellFormed.{IsWrittenSurface};
ghost use Rattle.lensmodel.specs.Setup.WholeFaults as faults;
ghost use Rattle.lensmodel.specs.Setup.Zones as zones;
ghost use Rattle.prescript.specs.Coefficients.{faults_from};

use exactdec::scale::shifted;
use exactdec::zone::{norm_of, zone_of};
use fixdec::dec::Dec;
use fixdec::span::Span;
use lensmodel::fault::ZmxFault;
use lensmodel::surface::{Surface, SurfaceKind};

/// The zone of an even asphere: 1.1 times its semi-diameter, rounded up to a multiple of 10^-9, as a
/// span of one number at scale 9. None where there is no semi-diameter, where it isn't above 0, and
/// where the zone is above 1000.
pub fn zone(s: &Surface) -> Option<Span>
    requires { s.now.kind ≡ SurfaceKind.EvenAsph }
    ensures value { result ≡ zones.surface_zone s.now }
    ensures range { IfSome result (λ zone. IsZone zone) }
{
    match &s.semi {
        Some(semi) => zone_of(semi),
        None => None,
    }
}

/// D of an even asphere with a zone: the least whole number from -6 to 6 with `zone^2 <= 10^D`.
pub fn norm(s: &Surface) -> i32
    requires asphere { s.now.kind ≡ SurfaceKind.EvenAsph }
    requires zone { IsSome (zones.surface_zone s.now) }
    ensures value { result ≡ zones.norm_of s.now }
    ensures low { neg_ℤ (pos 6) ≤ℤ result }
    ensures high { result ≤ℤ pos 6 }
    ensures least { IfSome (zones.surface_zone s.now) (λ zone. IsNorm zone.hi result) }
{
    norm_of(&zone(s).unwrap())
}

/// The written coefficient `a_i` of an even asphere, for `i` from 1 to 8.
fn written(s: &Surface, i: u32) -> Dec
    requires asphere { s.now.kind ≡ SurfaceKind.EvenAsph }
    requires low { 1 ≤ i }
    requires high { i ≤ 8 }
    ensures { result ≡ zones.coefficient s.now i }
{
    match i {
        1 => s.a1,
        2 => s.a2,
        3 => s.a3,
        4 => s.a4,
        5 => s.a5,
        6 => s.a6,
        7 => s.a7,
        _ => s.a8,
    }
}

/// The coefficient `b_i = a_i 10^(D i)` of an even asphere with a zone, for `i` from 1 to 8. The
/// exponent of `a_i` is one that is read, from -60 to 30.
pub fn scaled(s: &Surface, i: u32) -> Dec
    requires asphere { s.now.kind ≡ SurfaceKind.EvenAsph }
    requires zone { IsSome (zones.surface_zone s.now) }
    requires low { 1 ≤ i }
    requires high { i ≤ 8 }
    requires exponent { IsReadable (zones.coefficient s.now i).exp }
    ensures value { result ≡ zones.scaled_coefficient s.now i }
    ensures exact { value result ≈ value (zones.coefficient s.now i)
        *Q ten_power (zones.norm_of s.now *ℤ pos i) }
{
    shifted(&written(s, i), norm(s) * i as i32)
}

/// Whether a coefficient is above 10^9 in size.
pub fn is_great(b: &Dec) -> bool
    ensures { result ≡ faults.is_great b.now }
{
    let size = b.mant.unsigned_abs();
    if b.exp > 9 {
        return size > 0;
    }
    // A mantissa has at most 30 digits.
    let power = (9 - b.exp) as u32;
    power < 30 && size > 10u128.pow(power)
}

/// What is wrong with surface `j` as an even asphere: it has no zone, or its first coefficient `b_i`
/// that is above 10^9 in size. None of a standard surface.
pub fn asphere_fault(s: &Surface, j: u32) -> Option<ZmxFault>
    requires { IsWrittenSurface s.now }
    ensures { result ≡ first_fault (faults.asphere_faults s.now.kind j s.now) }
{
    match s.kind {
        SurfaceKind::Standard => None,
        SurfaceKind::EvenAsph if zone(s).is_none() => Some(ZmxFault::NoZone { surface: j }),
        SurfaceKind::EvenAsph => coefficient_fault(s, j),
    }
}

/// The first coefficient `b_i` of an even asphere with a zone that is above 10^9 in size.
fn coefficient_fault(s: &Surface, j: u32) -> Option<ZmxFault>
    requires asphere { s.now.kind ≡ SurfaceKind.EvenAsph }
    requires zone { IsSome (zones.surface_zone s.now) }
    requires written { IsWrittenSurface s.now }
    ensures { result ≡ first_fault (faults_from j s.now 8 1) }
{
    for i in 1..9 {
        if is_great(&scaled(s, i)) {
            return Some(ZmxFault::Coefficient { surface: j, i });
        }
    }
    None
}
