//! Surfaces of a lens.

ghost use Rattle.std.specs.Prelude.{◌≡◌};

use crate::name::{Name, copy_name};
use fixdec::dec::Dec;

/// The form of a surface.
#[derive(Clone, Copy, Debug, PartialEq, Eq, Default)]
pub enum SurfaceKind {
    /// A conic: `c (x^2 + y^2 + (1 + k) z^2) = 2 z`.
    #[default]
    Standard,
    /// A conic plus an even polynomial in the distance from the axis.
    EvenAsph,
}

/// A surface of a lens, in lens units (millimetres) from its vertex.
#[derive(Debug, PartialEq, Eq, Drop)]
pub struct Surface {
    /// The form: the record TYPE.
    pub kind: SurfaceKind,
    /// The vertex curvature, positive where the centre lies behind the vertex: CURV.
    pub curv: Dec,
    /// The conic constant: CONI.
    pub conic: Dec,
    /// The thickness to the next vertex: DISZ. None is infinite.
    pub thick: Option<Dec>,
    /// The name of the glass behind the surface: GLAS. None is air.
    pub glass: Option<Name>,
    /// The semi-diameter, at least 0: the first number of DIAM.
    pub semi: Option<Dec>,
    /// Whether the semi-diameter is a rim that clips: the second number of DIAM is 1.
    pub rim: bool,
    /// Whether the surface reflects: GLAS MIRROR. A mirror has no glass.
    pub mirror: bool,
    /// The coefficient of `rho` of an even asphere, rho being `x^2 + y^2`: PARM 1.
    pub a1: Dec,
    /// The coefficient of `rho^2`: PARM 2.
    pub a2: Dec,
    /// The coefficient of `rho^3`: PARM 3.
    pub a3: Dec,
    /// The coefficient of `rho^4`: PARM 4.
    pub a4: Dec,
    /// The coefficient of `rho^5`: PARM 5.
    pub a5: Dec,
    /// The coefficient of `rho^6`: PARM 6.
    pub a6: Dec,
    /// The coefficient of `rho^7`: PARM 7.
    pub a7: Dec,
    /// The coefficient of `rho^8`: PARM 8.
    pub a8: Dec,
}

impl Default for Surface {
    /// A plane in air, of thickness 0, without a semi-diameter.
    fn default() -> Surface {
        let zero = Dec { mant: 0, exp: 0 };
        Surface {
            kind: SurfaceKind::Standard,
            curv: zero,
            conic: zero,
            thick: Some(zero),
            glass: None,
            semi: None,
            rim: false,
            mirror: false,
            a1: zero,
            a2: zero,
            a3: zero,
            a4: zero,
            a5: zero,
            a6: zero,
            a7: zero,
            a8: zero,
        }
    }
}

/// The same name or none, copied without taking memory.
fn copy_glass(glass: &Option<Name>) -> Option<Name>
    ensures { result ≡ glass.now }
{
    match glass {
        None => None,
        Some(name) => Some(copy_name(name)),
    }
}

impl Surface {
    /// The same surface, copied without taking memory.
    pub fn copy(&self) -> Surface
        ensures { result ≡ self.now }
    {
        Surface {
            kind: self.kind,
            curv: self.curv,
            conic: self.conic,
            thick: self.thick,
            glass: copy_glass(&self.glass),
            semi: self.semi,
            rim: self.rim,
            mirror: self.mirror,
            a1: self.a1,
            a2: self.a2,
            a3: self.a3,
            a4: self.a4,
            a5: self.a5,
            a6: self.a6,
            a7: self.a7,
            a8: self.a8,
        }
    }
}
