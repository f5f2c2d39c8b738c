//! Values clipped to one side of 0.

ghost use Rattle.std.specs.Prelude.{◌≡◌, ℤ, ◌≤◌};
ghost use Rattle.lensmodel.specs.Rows.Spans.{side_of};
ghost use Rattle.refract.specs.Clipping.{AreInCap};

use enclose::arith::Arith;
use fixdec::span::{CAP, Span};
use fixdec::step::Step;

/// The numbers on the side to which rays travel: those along the axis, unless the sign is negative.
pub fn side(sign: i32) -> Span
    ensures { result ≡ side_of sign }
{
    if sign < 0 {
        Span { lo: -CAP, hi: 0 }
    } else {
        Span { lo: 0, hi: CAP }
    }
}

/// What of a value lies in a span.
pub fn clipped<T: Arith>(a: T, s: Span) -> Step<T>
    requires { T.SCALE ≤ 15 }
    ensures exact { result ≡ T.ops.clip a s }
    // No number of the value is lost past the cap.
    ensures kept { AreInCap (T.ops.hull a) }
{
    let _within = a.hull();
    a.clip(s)
}
