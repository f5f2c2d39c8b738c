//! Sums and differences with the sign of travel: 1 along the axis, -1 against it.

ghost use Rattle.std.specs.Prelude.{◌≡◌, ℤ, ◌≤◌};
ghost use Rattle.lensmodel.specs.Rows.Bending as rows;

use enclose::arith::Arith;
use fixdec::step::Step;

/// `a + b`, with the sign of travel.
pub(crate) fn with_sign<T: Arith>(sign: i32, a: T, b: T) -> Step<T>
    requires { T.SCALE ≤ 15 }
    ensures { result ≡ rows.with_sign T.ops sign a b }
{
    if sign < 0 { a.minus(b) } else { a.plus(b) }
}

/// `a - b`, with the sign of travel.
pub(crate) fn against_sign<T: Arith>(sign: i32, a: T, b: T) -> Step<T>
    requires { T.SCALE ≤ 15 }
    ensures { result ≡ rows.against_sign T.ops sign a b }
{
    if sign < 0 { a.plus(b) } else { a.minus(b) }
}

/// `N - along`, turned where the sign is negative.
pub(crate) fn turned<T: Arith>(sign: i32, n: T, along: T) -> Step<T>
    requires { T.SCALE ≤ 15 }
    ensures { result ≡ rows.turned_row T.ops sign n along }
{
    if sign < 0 {
        along.minus(n)
    } else {
        n.minus(along)
    }
}
