//! Rays, the points where they meet surfaces, and directions.

ghost use Rattle.std.specs.Prelude.{◌≡◌};
ghost use Rattle.lensmodel.specs.Rows.Bending.{Direction};
ghost use Rattle.lensmodel.specs.Rows.Crossing.{Met};
ghost use Rattle.lensmodel.specs.Rows.Start.{Incoming};

use std::marker::Model;

/// A ray that leaves a surface: a point from the surface's vertex, direction cosines, and the
/// optical path to the point.
#[derive(Clone, Copy, Debug)]
pub struct Ray<T> {
    /// The height in x.
    pub x: T,
    /// The height in y.
    pub y: T,
    /// The distance along the axis.
    pub z: T,
    /// The direction cosine in x.
    pub l: T,
    /// The direction cosine in y.
    pub m: T,
    /// The direction cosine along the axis.
    pub n: T,
    /// The optical path.
    pub path: T,
}

impl<T> Model for Ray<T> {
    ghost Value = { Incoming T };

    ghost view = { λ r. record {
      x = r.x;
      y = r.y;
      z = r.z;
      l = r.l;
      m = r.m;
      n = r.n;
      path = r.path;
    } };

    ghost inverse = { λ r. record {
      x = r.x;
      y = r.y;
      z = r.z;
      l = r.l;
      m = r.m;
      n = r.n;
      path = r.path;
    } };
}

/// The point where a ray meets a surface, from the surface's vertex.
#[derive(Clone, Copy, Debug)]
pub struct Hit<T> {
    /// The height in x.
    pub x: T,
    /// The height in y.
    pub y: T,
    /// The distance along the axis.
    pub z: T,
    /// The square of the distance from the axis.
    pub rho: T,
    /// One minus `(1 + k) c` times the sag of the surface's conic.
    pub w: T,
    /// The optical path.
    pub path: T,
}

impl<T> Model for Hit<T> {
    ghost Value = { Met T };

    ghost view = { λ h. record { x = h.x; y = h.y; z = h.z; rho = h.rho; w = h.w; path = h.path } };

    ghost inverse = { λ h. record {
      x = h.x;
      y = h.y;
      z = h.z;
      rho = h.rho;
      w = h.w;
      path = h.path;
    } };
}

/// The direction cosines of a ray.
#[derive(Clone, Copy, Debug)]
pub struct Dir<T> {
    /// The cosine in x.
    pub l: T,
    /// The cosine in y.
    pub m: T,
    /// The cosine along the axis.
    pub n: T,
}

impl<T> Model for Dir<T> {
    ghost Value = { Direction T };

    ghost view = { λ d. record { l = d.l; m = d.m; n = d.n } };

    ghost inverse = { λ d. record { l = d.l; m = d.m; n = d.n } };
}
