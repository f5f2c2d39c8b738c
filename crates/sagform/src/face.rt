//! Prepared surfaces.

ghost use Rattle.std.specs.Prelude.{◌≡◌, ℕ, ℤ, pos, ◌≤◌, ◌≤ℤ◌, neg_ℤ, length, slice_get, Some, IfSome};
ghost use Rattle.fixdec.specs.Ends.{InCap};
ghost use Rattle.lensmodel.specs.Rows.Preparation.{Prepared};
ghost use Rattle.sagform.specs.Faces.{HasZone};
ghost use Rattle.sagform.specs.Used.{AreZeroFrom};

use crate::terms::Terms;
use enclose::arith::Arith;
use fixdec::step::Step;
use lensmodel::surface::SurfaceKind;
use std::marker::Model;

/// A surface that is prepared: the values of its rows that depend on no ray, in lens units. It also
/// keeps three steps of later rows that depend on it alone.
#[derive(Drop)]
pub struct Face<T: Arith> {
    pub(crate) kind: SurfaceKind,
    pub(crate) d: T,
    pub(crate) c: T,
    pub(crate) kappa: T,
    pub(crate) ck: T,
    pub(crate) n: T,
    pub(crate) n2: Option<T>,
    pub(crate) rim2: Option<T>,
    pub(crate) zone2: Option<T>,
    pub(crate) norm: i32,
    pub(crate) b: Terms<T>,
    pub(crate) sign: i32,
    pub(crate) mirror: bool,
    // the units by which `wide_c` is widened
    pub(crate) e: i128,
    pub(crate) wide_c: Step<T>,
    pub(crate) n_square: Step<T>,
    pub(crate) n2_square: Step<T>,
}

impl<T: Arith> Model for Face<T> {
    ghost Value = { Prepared T };

    ghost view = { λ f. record {
      kind = f.kind;
      d = f.d;
      c = f.c;
      kappa = f.kappa;
      ck = f.ck;
      n = f.n;
      n2 = f.n2;
      rim2 = f.rim2;
      zone2 = f.zone2;
      norm = f.norm;
      b = f.b;
      sign = f.sign;
      mirror = f.mirror;
    } };

    ghost invariant = { λ f. (neg_ℤ (pos 6) ≤ℤ f.norm) × (f.norm ≤ℤ pos 6)
        × HasZone T.ops.hull f.kind f.zone2 × (f.wide_c ≡ T.ops.widen f.c f.e)
        × (f.n_square ≡ T.ops.square f.n) × IfSome f.n2 (λ n2. f.n2_square ≡ T.ops.square n2) };
}

impl<T: Arith> Face<T> {
    /// The form of the surface.
    pub fn kind(&self) -> SurfaceKind
        ensures { result ≡ self.now.kind }
    {
        self.kind
    }

    /// The distance from the vertex before.
    pub fn d(&self) -> T
        ensures { result ≡ self.now.d }
    {
        self.d
    }

    /// The vertex curvature.
    pub fn c(&self) -> T
        ensures { result ≡ self.now.c }
    {
        self.c
    }

    /// One plus the conic constant.
    pub fn kappa(&self) -> T
        ensures { result ≡ self.now.kappa }
    {
        self.kappa
    }

    /// The curvature times one plus the conic constant.
    pub fn ck(&self) -> T
        ensures { result ≡ self.now.ck }
    {
        self.ck
    }

    /// The refractive index before the surface.
    pub fn n(&self) -> T
        ensures { result ≡ self.now.n }
    {
        self.n
    }

    /// The refractive index behind the surface; None at the image.
    pub fn n2(&self) -> Option<T>
        ensures { result ≡ self.now.n2 }
    {
        self.n2
    }

    /// The square of the radius of the rim, where there is one.
    pub fn rim2(&self) -> Option<T>
        ensures { result ≡ self.now.rim2 }
    {
        self.rim2
    }

    /// The square of the radius of the zone, which an even asphere has, and no other surface.
    pub fn zone2(&self) -> Option<T>
        ensures value { result ≡ self.now.zone2 }
        // Its greatest value isn't below 0.
        ensures zone { HasZone T.ops.hull self.now.kind self.now.zone2 }
    {
        self.zone2
    }

    /// The number D from -6 to 6 with `u = rho / 10^D` at most 1 within the zone; 0 without a zone.
    pub fn norm(&self) -> i32
        ensures value { result ≡ self.now.norm }
        ensures low { neg_ℤ (pos 6) ≤ℤ result }
        ensures high { result ≤ℤ pos 6 }
    {
        self.norm
    }

    /// The coefficients of the even terms.
    pub(crate) fn terms(&self) -> &Terms<T>
        ensures { result.now ≡ self.now.b }
    {
        &self.b
    }

    /// A count of coefficients of the even terms past which each of them is zero.
    pub fn used(&self) -> usize
        ensures { AreZeroFrom T.ops result self.now.b }
    {
        let terms = &self.b;
        terms.used
    }

    /// The coefficient of `u` in the even terms; 0 of a standard surface.
    pub fn b1(&self) -> T
        ensures value { slice_get self.now.b 0 ≡ Some result }
        ensures count { length self.now.b ≡ 8 }
    {
        let terms = &self.b;
        terms.b1
    }

    /// The coefficient of `u^2` in the even terms; 0 of a standard surface.
    pub fn b2(&self) -> T
        ensures value { slice_get self.now.b 1 ≡ Some result }
        ensures count { length self.now.b ≡ 8 }
    {
        let terms = &self.b;
        terms.b2
    }

    /// The coefficient of `u^3` in the even terms; 0 of a standard surface.
    pub fn b3(&self) -> T
        ensures value { slice_get self.now.b 2 ≡ Some result }
        ensures count { length self.now.b ≡ 8 }
    {
        let terms = &self.b;
        terms.b3
    }

    /// The coefficient of `u^4` in the even terms; 0 of a standard surface.
    pub fn b4(&self) -> T
        ensures value { slice_get self.now.b 3 ≡ Some result }
        ensures count { length self.now.b ≡ 8 }
    {
        let terms = &self.b;
        terms.b4
    }

    /// The coefficient of `u^5` in the even terms; 0 of a standard surface.
    pub fn b5(&self) -> T
        ensures value { slice_get self.now.b 4 ≡ Some result }
        ensures count { length self.now.b ≡ 8 }
    {
        let terms = &self.b;
        terms.b5
    }

    /// The coefficient of `u^6` in the even terms; 0 of a standard surface.
    pub fn b6(&self) -> T
        ensures value { slice_get self.now.b 5 ≡ Some result }
        ensures count { length self.now.b ≡ 8 }
    {
        let terms = &self.b;
        terms.b6
    }

    /// The coefficient of `u^7` in the even terms; 0 of a standard surface.
    pub fn b7(&self) -> T
        ensures value { slice_get self.now.b 6 ≡ Some result }
        ensures count { length self.now.b ≡ 8 }
    {
        let terms = &self.b;
        terms.b7
    }

    /// The coefficient of `u^8` in the even terms; 0 of a standard surface.
    pub fn b8(&self) -> T
        ensures value { slice_get self.now.b 7 ≡ Some result }
        ensures count { length self.now.b ≡ 8 }
    {
        let terms = &self.b;
        terms.b8
    }

    /// The sign of travel of the rays that arrive: 1 along the axis, -1 against it.
    pub fn sign(&self) -> i32
        ensures { result ≡ self.now.sign }
    {
        self.sign
    }

    /// Whether the surface reflects.
    pub fn mirror(&self) -> bool
        ensures { result ≡ self.now.mirror }
    {
        self.mirror
    }

    /// The curvature widened by `e` units.
    pub fn wide_c(&self, e: i128) -> Step<T>
        requires scale { T.SCALE ≤ 15 }
        requires low { pos 0 ≤ℤ e }
        requires high { InCap e }
        ensures { result ≡ T.ops.widen self.now.c e }
    {
        if e == self.e {
            self.wide_c
        } else {
            self.c.widen(e)
        }
    }

    /// The square of the index before the surface.
    pub fn n_square(&self) -> Step<T>
        ensures { result ≡ T.ops.square self.now.n }
    {
        self.n_square
    }

    /// The square of the index behind the surface, where there is one.
    pub fn n2_square(&self) -> Step<T>
        ensures { IfSome self.now.n2 (λ n2. result ≡ T.ops.square n2) }
    {
        self.n2_square
    }
}
