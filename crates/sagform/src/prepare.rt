//! The preparation of a surface.

ghost use Rattle.std.specs.Prelude.{◌≡◌, ℕ, suc, ℤ, pos, ◌+◌, ◌-◌, ◌<◌, ◌≤◌, ◌≤ℤ◌, ◌*ℤ◌, neg_ℤ, length, IsTrue, IfSome};
ghost use Rattle.std.specs.List.{All};
ghost use Rattle.fixdec.specs.Ends.{InCap};
ghost use Rattle.fixdec.specs.Scaled.{dec_shifted};
ghost use Rattle.fixdec.specs.Steps.{OnVal};
ghost use Rattle.fixdec.specs.Word.{IsReadable};
ghost use Rattle.fixdec.specs.Zone.{IsZone};
ghost use Rattle.lensmodel.specs.Claims.Enclosure.{EnclosesPreparation};
ghost use Rattle.lensmodel.specs.Equations.Dispersion.{IsKnown};
ghost use Rattle.lensmodel.specs.Rows.Constants as constants;
ghost use Rattle.lensmodel.specs.Rows.Preparation as rows;
ghost use Rattle.lensmodel.specs.Setup.Media as media;
ghost use Rattle.lensmodel.specs.Setup.Ranges.{is_not_negative};
ghost use Rattle.lensmodel.specs.Setup.Values as values;
ghost use Rattle.lensmodel.specs.Setup.WellFormed.{IsBox, IsWellFormed, IsWrittenSurface};
ghost use Rattle.lensmodel.specs.Setup.Zones as zones;
ghost use Rattle.sagform.specs.Deviations.{symbol_row};
ghost use Rattle.sagform.specs.Faces.{HasZone};
ghost use Rattle.sagform.specs.Setups.{IsZoned};
ghost use Rattle.sagform.specs.Used.{AreWrittenZeroFrom};
ghost use Rattle.sagform.specs.Zoned.{zone_at, zone_decimal, norm_at, scaled_at};

use crate::constant::{decimal, residual_units, whole};
use crate::face::Face;
use crate::index::index;
use crate::layout::{medium, owner, reflects, surface, travel};
use crate::steps::Steps;
use crate::terms::Terms;
use enclose::arith::Arith;
use exactdec::scale;
use exactdec::zone::{norm_of, zone_of};
use fixdec::dec::Dec;
use fixdec::span::Span;
use fixdec::step::Step;
use fixdec::val;
use lensmodel::glass::Medium;
use lensmodel::setup::Setup;
use lensmodel::surface::{Surface, SurfaceKind};
use lensmodel::tolerance::{Tol, TolBox, TolKind};
use std::sync::ledger::Ledger;

/// The tolerances of a setup: none without a box.
fn tolerances(toler: &Option<TolBox>) -> &[Tol]
    ensures { result.now ≡ values.tolerances toler.now }
{
    match toler {
        Some(list) => list.list.as_slice(),
        None => &[],
    }
}

/// Whether a tolerance stands on this value of surface `j`.
fn stands_on(kind: TolKind, j: u32, t: &Tol) -> bool
    ensures { result ≡ values.stands_on kind j t.now }
{
    t.kind == kind && t.surface == j
}

/// A value with symbol `i`, whose tolerance is `delta`.
fn deviated<T: Arith>(v: T, i: usize, delta: &Dec) -> Step<T>
    requires scale { T.SCALE ≤ 15 }
    requires index { i < 32 }
    requires sign { IsTrue (is_not_negative delta.now) }
    ensures { result ≡ symbol_row T.ops T.SCALE v i delta.now }
{
    let span = val!(scale::span(delta, T::SCALE));
    v.symbol(i, span)
}

/// A value of surface `j` with the symbol of its tolerance, where it has one.
fn with_symbol<T: Arith>(list: &[Tol], kind: TolKind, j: u32, v: T) -> Step<T>
    requires scale { T.SCALE ≤ 15 }
    requires count { length list.now ≤ 32 }
    requires signs { All (λ t. IsTrue (is_not_negative t.delta)) list.now }
    ensures { result ≡ rows.with_symbol_from T.ops T.SCALE 0 list.now kind j v }
{
    for (i, t) in list.iter().enumerate() {
        if stands_on(kind, j, t) {
            return deviated(v, i, &t.delta);
        }
    }
    Step::Val(v)
}

/// The index of a medium at a wavelength.
fn medium_index<T: Arith>(m: &Medium, wave: &Dec, e: i128) -> Step<T>
    requires scale { T.SCALE ≤ 15 }
    requires low { pos 0 ≤ℤ e }
    requires high { InCap e }
    requires known { IsKnown m.now }
    ensures { result ≡ rows.medium_row T.ops T.SCALE m.now wave.now e }
{
    match m {
        Medium::Air => whole(1),
        Medium::Of(_) => index(m, val!(scale::span(wave, T::SCALE)), e),
    }
}

/// One plus the conic constant of surface `j`.
fn conic_factor<T: Arith>(s: &Setup, j: u32) -> Step<T>
    requires scale { T.SCALE ≤ 15 }
    requires surface { j < length s.now.lens.surfaces.items }
    ensures { result ≡ rows.conic_factor_row T.ops T.SCALE (values.surface_at s.now j) }
{
    val!(whole::<T>(1)).plus(val!(decimal(&surface(s, j).conic)))
}

/// The square of a decimal, where there is one.
fn square<T: Arith>(v: &Option<Dec>) -> Step<Option<T>>
    requires { T.SCALE ≤ 15 }
    ensures { result ≡ rows.square_row T.ops T.SCALE v.now }
{
    match v {
        None => Step::Val(None),
        Some(d) => Step::Val(Some(val!(val!(decimal::<T>(d)).square()))),
    }
}

/// The square of the rim of surface `j`, where there is one.
fn rim2<T: Arith>(s: &Setup, j: u32) -> Step<Option<T>>
    requires scale { T.SCALE ≤ 15 }
    requires surface { j < length s.now.lens.surfaces.items }
    ensures { result ≡ rows.square_row T.ops T.SCALE (values.rim_of (values.surface_at s.now j)) }
{
    let f = surface(s, j);
    square(&if f.rim { f.semi } else { None })
}

/// The zone of an even asphere, at scale 9.
fn zone(f: &Surface) -> Option<Span>
    ensures value { result ≡ zone_at f.now.kind f.now.semi }
    ensures range { IfSome result (λ zone. IsZone zone) }
{
    match (f.kind, &f.semi) {
        (SurfaceKind::EvenAsph, Some(semi)) => zone_of(semi),
        _ => None,
    }
}

/// The zone as a decimal.
fn decimal_of(zone: &Option<Span>) -> Option<Dec>
    requires { IfSome zone.now (λ zone. IsZone zone) }
    ensures { result ≡ zone_decimal zone.now }
{
    match zone {
        None => None,
        Some(span) => Some(Dec {
            mant: span.hi,
            exp: -9,
        }),
    }
}

/// The power of ten that a zone is brought to; 0 without a zone.
fn norm(zone: &Option<Span>) -> i32
    requires { IfSome zone.now (λ zone. IsZone zone) }
    ensures value { result ≡ norm_at zone.now }
    ensures low { neg_ℤ (pos 6) ≤ℤ result }
    ensures high { result ≤ℤ pos 6 }
{
    match zone {
        None => 0,
        Some(span) => norm_of(span),
    }
}

/// The written coefficient `a_i`, for `i` from 1 to 8; 0 of a standard surface.
fn written(f: &Surface, i: u8) -> Dec
    requires low { 1 ≤ i }
    requires high { i ≤ 8 }
    requires written { IsWrittenSurface f.now }
    ensures value { result ≡ zones.coefficient f.now i }
    ensures readable { IsReadable result.exp }
{
    match (f.kind, i) {
        (SurfaceKind::Standard, _) => Dec { mant: 0, exp: 0 },
        (SurfaceKind::EvenAsph, 1) => f.a1,
        (SurfaceKind::EvenAsph, 2) => f.a2,
        (SurfaceKind::EvenAsph, 3) => f.a3,
        (SurfaceKind::EvenAsph, 4) => f.a4,
        (SurfaceKind::EvenAsph, 5) => f.a5,
        (SurfaceKind::EvenAsph, 6) => f.a6,
        (SurfaceKind::EvenAsph, 7) => f.a7,
        (SurfaceKind::EvenAsph, _) => f.a8,
    }
}

/// The coefficient `b_i`, for `i` from 1 to 8, brought to the power of ten of a zone.
fn coefficient<T: Arith>(f: &Surface, zone: &Option<Span>, i: u8) -> Step<T>
    requires scale { T.SCALE ≤ 15 }
    requires low { 1 ≤ i }
    requires high { i ≤ 8 }
    requires written { IsWrittenSurface f.now }
    requires range { IfSome zone.now (λ zone. IsZone zone) }
    ensures { result ≡ constants.decimal_row T.ops T.SCALE
        (dec_shifted (zones.coefficient f.now i) (norm_at zone.now *ℤ pos i)) }
{
    decimal(&scale::shifted(&written(f, i), norm(zone) * i32::from(i)))
}

/// How many coefficients there are up to the last that isn't written as 0.
fn used_of(f: &Surface) -> usize
    requires { IsWrittenSurface f.now }
    ensures { AreWrittenZeroFrom result (zones.coefficient f.now) }
{
    let mut used: u8 = 8;
    while 0 < used && written(f, used).mant == 0 {
        used -= 1;
    }
    used as usize
}

/// The coefficients `b1` to `b8`, brought to the power of ten of a zone.
fn coefficients<T: Arith>(f: &Surface, zone: &Option<Span>) -> Step<Terms<T>>
    requires scale { T.SCALE ≤ 15 }
    requires written { IsWrittenSurface f.now }
    requires range { IfSome zone.now (λ zone. IsZone zone) }
    ensures { result ≡ rows.decimal_rows T.ops T.SCALE (scaled_at (norm_at zone.now) f.now) }
{
    Step::Val(Terms {
        b1: val!(coefficient(f, zone, 1)),
        b2: val!(coefficient(f, zone, 2)),
        b3: val!(coefficient(f, zone, 3)),
        b4: val!(coefficient(f, zone, 4)),
        b5: val!(coefficient(f, zone, 5)),
        b6: val!(coefficient(f, zone, 6)),
        b7: val!(coefficient(f, zone, 7)),
        b8: val!(coefficient(f, zone, 8)),
        used: used_of(f),
    })
}

/// The distance from surface `j` to the next; 0 from the start.
fn distance<T: Arith>(s: &Setup, j: u32) -> Step<T>
    requires scale { T.SCALE ≤ 15 }
    requires surface { j < length s.now.lens.surfaces.items }
    requires toler { IsBox (values.image s.now) (values.tolerances s.now.toler) }
    ensures { result ≡ rows.distance_by T.ops T.SCALE (rows.with_symbol T.ops T.SCALE s.now) s.now
        j }
{
    if j == 0 {
        return whole(0);
    }
    let thickness = surface(s, j).thick.unwrap_or(Dec { mant: 0, exp: 0 });
    let d = val!(decimal::<T>(&thickness));
    with_symbol(tolerances(&s.toler), TolKind::Thic, j, d)
}

/// The curvature of surface `j`.
fn curvature<T: Arith>(s: &Setup, j: u32) -> Step<T>
    requires scale { T.SCALE ≤ 15 }
    requires surface { j < length s.now.lens.surfaces.items }
    requires toler { IsBox (values.image s.now) (values.tolerances s.now.toler) }
    ensures { result ≡ rows.curvature_by T.ops T.SCALE (rows.with_symbol T.ops T.SCALE s.now) s.now
        j }
{
    let c = val!(decimal::<T>(&surface(s, j).curv));
    with_symbol(tolerances(&s.toler), TolKind::Curv, j, c)
}

/// The index behind surface `j`, which isn't the image.
pub fn index_behind<T: Arith>(s: &Setup, j: u32) -> Step<T>
    requires scale { T.SCALE ≤ 15 }
    requires well { IsWellFormed s.now }
    requires surface { j < values.image s.now }
    ensures { result ≡ rows.index_row T.ops T.SCALE s.now
        (constants.residual_units T.SCALE s.now.res) j }
{
    let e = residual_units(T::SCALE, s.res);
    let n = val!(medium_index::<T>(medium(s, j), &s.wave, e));
    with_symbol(tolerances(&s.toler), TolKind::Indx, owner(s, j), n)
}

/// The index behind surface `j`, where it isn't the image.
fn index_if<T: Arith>(s: &Setup, j: u32) -> Step<Option<T>>
    requires scale { T.SCALE ≤ 15 }
    requires well { IsWellFormed s.now }
    requires surface { j < length s.now.lens.surfaces.items }
    ensures { result ≡ rows.index_behind_by T.ops T.SCALE (rows.with_symbol T.ops T.SCALE s.now)
        s.now (constants.residual_units T.SCALE s.now.res) j }
{
    if (j as usize) < s.lens.surfaces.len() - 1 {
        Step::Val(Some(val!(index_behind(s, j))))
    } else {
        Step::Val(None)
    }
}

/// The square of the zone of surface `j`, which an even asphere has.
fn zone2<T: Arith>(s: &Setup, j: u32) -> Step<Option<T>>
    requires scale { T.SCALE ≤ 15 }
    requires surface { j < length s.now.lens.surfaces.items }
    requires zoned { IsZoned (values.surface_at s.now j) }
    ensures exact { result
        ≡ rows.square_row T.ops T.SCALE (zones.zone_of (values.surface_at s.now j)) }
    ensures kept { OnVal result (λ a. HasZone T.ops.hull (values.surface_at s.now j).kind a) }
{
    square(&decimal_of(&zone(surface(s, j))))
}

/// The power of ten that `rho` is brought to at surface `j`.
fn norm_of_surface(s: &Setup, j: u32) -> i32
    requires surface { j < length s.now.lens.surfaces.items }
    requires zoned { IsZoned (values.surface_at s.now j) }
    ensures value { result ≡ zones.norm_of (values.surface_at s.now j) }
    ensures low { neg_ℤ (pos 6) ≤ℤ result }
    ensures high { result ≤ℤ pos 6 }
{
    norm(&zone(surface(s, j)))
}

/// The coefficients `b1` to `b8` of surface `j`.
fn terms<T: Arith>(s: &Setup, j: u32) -> Step<Terms<T>>
    requires scale { T.SCALE ≤ 15 }
    requires surface { j < length s.now.lens.surfaces.items }
    requires zoned { IsZoned (values.surface_at s.now j) }
    requires written { IsWrittenSurface (values.surface_at s.now j) }
    ensures { result ≡ rows.decimal_rows T.ops T.SCALE
        (zones.scaled_coefficients (values.surface_at s.now j)) }
{
    let f = surface(s, j);
    coefficients(f, &zone(f))
}

/// The rows of the preparation of surface `j`, behind the surface `before`.
fn rows_of<T: Arith>(s: &Setup, before: u32, j: u32) -> Step<Face<T>>
    requires scale { T.SCALE ≤ 15 }
    requires well { IsWellFormed s.now }
    requires next { j ≡ suc before }
    requires surface { j < length s.now.lens.surfaces.items }
    ensures { result ≡ rows.preparation_rows T.ops T.SCALE s.now
        (constants.residual_units T.SCALE s.now.res) before }
{
    let d = val!(distance::<T>(s, before));
    let c = val!(curvature::<T>(s, j));
    let kappa = val!(conic_factor::<T>(s, j));
    let ck = val!(c.times(kappa));
    let n = val!(index_behind::<T>(s, before));
    let n2 = val!(index_if::<T>(s, j));
    let rim2 = val!(rim2::<T>(s, j));
    let zone2 = val!(zone2::<T>(s, j));
    let b = val!(terms::<T>(s, j));
    let e = residual_units(T::SCALE, s.res);
    Step::Val(Face {
        kind: surface(s, j).kind,
        d,
        c,
        kappa,
        ck,
        n,
        n2,
        rim2,
        zone2,
        norm: norm_of_surface(s, j),
        b,
        sign: travel(s, before),
        mirror: reflects(s, j),
        e,
        wide_c: c.widen(e),
        n_square: n.square(),
        n2_square: square_if(n2),
    })
}

/// The square of the index behind, where there is one.
fn square_if<T: Arith>(n2: Option<T>) -> Step<T>
    requires { T.SCALE ≤ 15 }
    ensures { IfSome n2 (λ n. result ≡ T.ops.square n) }
{
    match n2 {
        Some(n) => n.square(),
        None => Step::Empty,
    }
}

/// Surface `j`, from 1 to the image, prepared. Each call counts one more. It is Lost by the first of
/// its rows that is, and never Empty.
pub fn face<T: Arith, L: Ledger>(s: &Setup, j: u32, steps: &mut Steps<L>) -> Step<Face<T>>
    requires scale { T.SCALE ≤ 15 }
    requires well { IsWellFormed s.now }
    requires low { 1 ≤ j }
    requires high { j ≤ values.image s.now }
    ensures ticks { steps.new ≡ steps.old + 1 }
    ensures exact { result
        ≡ rows.preparation_rows T.ops T.SCALE s.now (constants.residual_units T.SCALE s.now.res)
        (j - 1) }

    // What the surface has in each chain is a member of its value.
    ensures encloses { EnclosesPreparation T.member s.now (j - 1) result }
{
    steps.tick();
    rows_of(s, j - 1, j)
}
