//! Rays that are asked for.

use fixdec::dec::Dec;
use std::marker::Model;

/// The fraction `num / den`, `den` being at least 1.
#[derive(Clone, Copy, Debug, PartialEq, Eq)]
pub struct Ratio {
    /// The numerator.
    pub num: Dec,
    /// The denominator.
    pub den: u32,
}

impl Model for Ratio {
    ghost use Rattle.std.specs.Prelude.{◌≤◌};
    ghost use Rattle.lensmodel.specs.Setup.Ratio.{Ratio as Fraction};

    ghost Value = { Fraction };

    ghost view = { λ r. record { num = r.num; den = r.den } };

    ghost invariant = { λ r. 1 ≤ r.den };

    ghost inverse = { λ f. record { num = f.num; den = f.den } };
}

/// One ray, where it starts: at the vertex plane of surface 1, with slopes `p` in x and `q` in y.
#[derive(Clone, Copy, Debug, PartialEq, Eq)]
pub enum Launch {
    /// A ray by its point.
    Plain {
        /// The height in x, in lens units.
        x: Dec,
        /// The height in y, in lens units.
        y: Dec,
        /// The slope in x, `dx/dz`.
        p: Dec,
        /// The slope in y, `dy/dz`.
        q: Dec,
    },
    /// A ray by its point in the pupil plane: `x = r px - p z`, `y = r py - q z`.
    Pupil {
        /// The slope in x, `dx/dz`.
        p: Dec,
        /// The slope in y, `dy/dz`.
        q: Dec,
        /// The pupil coordinate in x, in radii of the pupil.
        px: Ratio,
        /// The pupil coordinate in y, in radii of the pupil.
        py: Ratio,
        /// The place of the pupil plane, from vertex 1, in lens units.
        z: Dec,
        /// The radius of the pupil, at least 0, in lens units.
        r: Dec,
    },
}
