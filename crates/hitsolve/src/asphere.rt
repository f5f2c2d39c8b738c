//! Where a line meets an even asphere: a window of z, pruned by its cells, and four slope rounds.

ghost use Rattle.std.specs.Prelude.{◌≡◌, ℤ, pos, ◌≤◌, ◌≤ℤ◌};
ghost use Rattle.fixdec.specs.Ends.{InCap};
ghost use Rattle.hitsolve.specs.Narrowed.{rounds_from, rounds_row};
ghost use Rattle.lensmodel.specs.Rows.SlopeRounds as rows;
ghost use Rattle.lensmodel.specs.Rows.Spans as spans;

use crate::cells::cells_of;
use crate::line::Line;
use crate::rounds::next;
use crate::search::twice_pruned;
use enclose::arith::Arith;
use fixdec::span::Span;
use fixdec::step::Step;
use fixdec::val;
use sagform::face::Face;

/// The slope rounds before the last.
const EARLY_ROUNDS: u32 = 3;

/// The part that two spans have in common.
fn common(a: Span, b: Span) -> Step<Span>
    ensures { result ≡ spans.common a b }
{
    let lo = a.lo.max(b.lo);
    let hi = a.hi.min(b.hi);
    if lo <= hi {
        Step::Val(Span { lo, hi })
    } else {
        Step::Empty
    }
}

/// The window of z, pruned twice.
fn pruned_window<T: Arith>(f: &Face<T>, line: Line<T>, e: i128) -> Step<Span>
    requires scale { T.SCALE ≤ 15 }
    requires low { pos 0 ≤ℤ e }
    requires high { InCap e }
    ensures { result ≡ rows.pruned_window T.ops T.SCALE f.now line e }
{
    twice_pruned(&cells_of(f, line, e))
}

/// The window after a round. A round that is lost leaves it as it is.
fn narrowed<T: Arith>(a: Span, answer: &Step<T>) -> Step<Span>
    requires { T.SCALE ≤ 15 }
    ensures { result ≡ rows.narrowed T.ops T.SCALE a answer.now }
{
    match answer {
        Step::Val(z) => common(z.hull(), a),
        Step::Empty => Step::Empty,
        Step::Lost(_) => Step::Val(a),
    }
}

/// The answer of the last round, clipped to its window.
fn last_answer<T: Arith>(a: Span, answer: Step<T>) -> Step<T>
    requires { T.SCALE ≤ 15 }
    ensures { result ≡ rows.last_answer T.ops T.SCALE a answer }
{
    let z = val!(answer);
    let _common = val!(common(z.hull(), a));
    z.clip(a)
}

/// The answer of the last round, with at most `left` rounds before it. One that leaves the window as it
/// is would do so again, and ends them.
fn rounds<T: Arith>(f: &Face<T>, line: Line<T>, e: i128, a: Span, left: u32) -> Step<T>
    requires scale { T.SCALE ≤ 15 }
    requires low { pos 0 ≤ℤ e }
    requires high { InCap e }
    ensures { result ≡ rounds_from T.ops T.SCALE f.now line e left a }
{
    let answer = next(f, line, e, a);
    if left == 0 {
        return last_answer(a, answer);
    }
    match narrowed(a, &answer) {
        Step::Val(narrower) => {
            if narrower == a {
                last_answer(a, answer)
            } else {
                rounds(f, line, e, narrower, left - 1)
            }
        }
        Step::Empty => Step::Empty,
        Step::Lost(why) => Step::Lost(why),
    }
}

/// Where a line meets an even asphere: the window, and the rounds.
fn narrowed_down<T: Arith>(f: &Face<T>, line: Line<T>, e: i128) -> Step<T>
    requires scale { T.SCALE ≤ 15 }
    requires low { pos 0 ≤ℤ e }
    requires high { InCap e }
    ensures { result ≡ rounds_row T.ops T.SCALE f.now line e }
{
    rounds(f, line, e, val!(pruned_window(f, line, e)), EARLY_ROUNDS)
}

/// Where a line meets an even asphere.
pub(crate) fn meet<T: Arith>(f: &Face<T>, line: Line<T>, e: i128) -> Step<T>
    requires scale { T.SCALE ≤ 15 }
    requires low { pos 0 ≤ℤ e }
    requires high { InCap e }
    ensures { result ≡ rows.meet_asphere_rows T.ops T.SCALE f.now line e }
{
    narrowed_down(f, line, e)
}
