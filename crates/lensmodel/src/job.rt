//! Jobs: what is asked of a lens.

ghost use Rattle.std.specs.Prelude.{◌≡◌};

use fixdec::dec::Dec;
use std::marker::Model;

/// One line of a job that asks for rays. `z` and `r` are the pupil that is in force there.
#[derive(Clone, Copy, Debug, PartialEq, Eq)]
pub enum Ask {
    /// One ray from the vertex plane of surface 1.
    Ray {
        /// The height in x, in lens units.
        x: Dec,
        /// The height in y, in lens units.
        y: Dec,
        /// The slope in x, `dx/dz`.
        p: Dec,
        /// The slope in y, `dy/dz`.
        q: Dec,
    },
    /// One ray of a parallel beam, by its pupil coordinates.
    Aim {
        /// The slope in x, `dx/dz`.
        p: Dec,
        /// The slope in y, `dy/dz`.
        q: Dec,
        /// The pupil coordinate in x, in radii of the pupil.
        px: Dec,
        /// The pupil coordinate in y, in radii of the pupil.
        py: Dec,
        /// The place of the pupil plane, from vertex 1, in lens units.
        z: Dec,
        /// The radius of the pupil, in lens units.
        r: Dec,
    },
    /// A fan of rays along each pupil axis, `2 n + 1` on each.
    Fan {
        /// The slope in x, `dx/dz`.
        p: Dec,
        /// The slope in y, `dy/dz`.
        q: Dec,
        /// The number of rays on each side, from 1 to 1000.
        n: u32,
        /// The place of the pupil plane, from vertex 1, in lens units.
        z: Dec,
        /// The radius of the pupil, in lens units.
        r: Dec,
    },
    /// A square grid of `(2 n + 1)^2` rays over the pupil.
    Spot {
        /// The slope in x, `dx/dz`.
        p: Dec,
        /// The slope in y, `dy/dz`.
        q: Dec,
        /// The number of rays on each side, from 1 to 60.
        n: u32,
        /// The place of the pupil plane, from vertex 1, in lens units.
        z: Dec,
        /// The radius of the pupil, in lens units.
        r: Dec,
    },
    /// One paraxial ray.
    First {
        /// The height at the vertex plane of surface 1, in lens units.
        y: Dec,
        /// The slope there, `dy/dz`.
        u: Dec,
    },
    /// A marginal and a chief paraxial ray.
    Seidel {
        /// The height of the marginal ray, in lens units.
        y: Dec,
        /// The slope of the marginal ray.
        u: Dec,
        /// The height of the chief ray, in lens units.
        yb: Dec,
        /// The slope of the chief ray.
        ub: Dec,
    },
}

/// The lines of a job that ask for rays, in order.
#[derive(Debug, Drop)]
pub struct Asks {
    list: Vec<Ask>,
}

impl Model for Asks {
    ghost use Rattle.std.specs.Prelude.{List};
    ghost use Rattle.lensmodel.specs.declared.job.Ask.{Ask};

    ghost Value = { List Ask };

    ghost view = { λ a. a.list.items };
}

impl Asks {
    /// The asks of a list, which is taken over.
    pub fn from_vec(list: Vec<Ask>) -> Asks
        ensures { result ≡ list.items }
    {
        Asks { list }
    }

    /// The list of the asks, given back without taking memory.
    pub fn into_vec(self) -> Vec<Ask>
        ensures { result.items ≡ self }
    {
        self.list
    }

    /// The asks.
    pub fn as_slice(&self) -> &[Ask]
        ensures { result.now ≡ self.now }
    {
        self.list.as_slice()
    }
}

/// A job.
#[derive(Debug, Drop)]
pub struct Job {
    /// The wavelength in micrometres, above 0; None is the lens's primary one.
    pub wave: Option<Dec>,
    /// The residual number r, from 4 to 14.
    pub res: u32,
    /// The width bound of a row's intervals, above 0 and at most 1000.
    pub width: Dec,
    /// The lines that ask for rays, in order: for at most 10,000 in all.
    pub asks: Asks,
}
