//! Preparations that are kept.

ghost use Rattle.std.specs.Prelude.{◌≡◌};
ghost use Rattle.skewtrace.specs.Readies.{step_of};

use enclose::arith::Arith;
use fixdec::step::{Step, Why};
use sagform::face::Face;

/// The preparation of a surface as it is kept: a step that can be let go.
#[derive(Drop)]
pub(crate) enum Ready<T: Arith> {
    /// A prepared surface.
    Face(Face<T>),
    /// There is none.
    Empty,
    /// A row of it is lost, and why.
    Lost(Why),
}

/// A preparation to be kept.
pub(crate) fn kept<T: Arith>(face: Step<Face<T>>) -> Ready<T>
    ensures { step_of result ≡ face }
{
    match face {
        Step::Val(face) => Ready::Face(face),
        Step::Empty => Ready::Empty,
        Step::Lost(why) => Ready::Lost(why),
    }
}
