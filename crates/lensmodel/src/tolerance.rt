//! Tolerances: the box in which the prescription lies.

ghost use Rattle.std.specs.Prelude.{◌≡◌};

use arrayvec::ArrayVec;
use fixdec::dec::Dec;

/// Which value of a surface a tolerance stands on.
#[derive(Clone, Copy, Debug, PartialEq, Eq, Default)]
pub enum TolKind {
    /// The vertex curvature, per lens unit.
    #[default]
    Curv,
    /// The thickness to the next vertex, in lens units.
    Thic,
    /// The index of the medium behind the surface.
    Indx,
}

/// A tolerance: the value is its decimal plus `delta` times a symbol from -1 to 1.
#[derive(Clone, Copy, Debug, PartialEq, Eq, Default)]
pub struct Tol {
    /// Which value.
    pub kind: TolKind,
    /// The number of the surface, the object being 0.
    pub surface: u32,
    /// The greatest deviation, at least 0.
    pub delta: Dec,
}

/// The box of all tolerances. The symbol of a tolerance is its place in the list.
#[derive(Debug, PartialEq, Eq, Drop)]
pub struct TolBox {
    /// The tolerances in the order of the file.
    pub list: ArrayVec<Tol, 32>,
}

impl TolBox {
    /// The same box, copied without taking memory.
    pub fn copy(&self) -> TolBox
        ensures { result ≡ self.now }
    {
        let mut list: ArrayVec<Tol, 32> = ArrayVec::new();
        let _ = list.try_extend_from_slice(self.list.as_slice());
        TolBox { list }
    }
}
