//! The search of the cells of a window that are kept.

ghost use Rattle.std.specs.Prelude.{◌≡◌, true, false, ◌≤◌, ◌<◌, ◌+◌, ◌-◌, ◌≤ℤ◌};
ghost use Rattle.hitsolve.specs.CellValues.{AreDropped, IsFirstKept, IsLast, IsLastKept, keeps_in, twice_pruned_row};
ghost use Rattle.hitsolve.specs.Narrowing.Blocks as blocks;
ghost use Rattle.lensmodel.specs.Rows.Cells as rows;

use crate::cells::{Cells, keeps, window};
use fixdec::div::floor_div;
use fixdec::span::Span;
use fixdec::step::Step;
use fixdec::val;

/// The cells of a window.
const CELLS: u32 = 64;

/// Point `i` between the ends of a window, where point 0 is the least end and the last one the
/// greatest.
fn cut(a: Span, i: u32) -> i128
    requires { i ≤ 64 }
    ensures value { result ≡ rows.cut a i }
    ensures low { a.lo ≤ℤ result }
    ensures high { result ≤ℤ a.hi }
{
    a.lo + floor_div((a.hi - a.lo) * i128::from(i), i128::from(CELLS))
}

/// `n` cells of a window from cell `i` on, as one interval.
fn block(a: Span, i: u32, n: u32) -> Span
    requires { i + n ≤ 64 }
    ensures value { result ≡ blocks.block a i n }
    ensures order { a.lo ≤ℤ a.hi }
{
    Span {
        lo: cut(a, i),
        hi: cut(a, i + n),
    }
}

/// Whether one of `n` cells from cell `i` on may be kept.
fn may_keep(k: &Cells, a: Span, i: u32, n: u32) -> bool
    requires { i + n ≤ 64 }
    ensures dropped { result ≡ false → AreDropped (keeps_in k.now) a i (i + n) }
    ensures kept { result ≡ true → n ≡ 1 → keeps_in k.now (rows.cell a i) ≡ true }
{
    keeps(k, block(a, i, n))
}

/// The first of `n` cells from cell `i` on that is kept, found by halves.
fn first_kept(k: &Cells, a: Span, i: u32, n: u32) -> Option<u32>
    requires some { 1 ≤ n }
    requires range { i + n ≤ 64 }
    ensures { IsFirstKept (keeps_in k.now) a i n result }
{
    if !may_keep(k, a, i, n) {
        return None;
    }
    if n == 1 {
        return Some(i);
    }
    let half = n / 2;
    match first_kept(k, a, i, half) {
        Some(first) => Some(first),
        None => first_kept(k, a, i + half, n - half),
    }
}

/// The last of `n` cells from cell `i` on that is kept, found by halves.
fn last_kept(k: &Cells, a: Span, i: u32, n: u32) -> Option<u32>
    requires some { 1 ≤ n }
    requires range { i + n ≤ 64 }
    ensures { IsLastKept (keeps_in k.now) a i n result }
{
    if !may_keep(k, a, i, n) {
        return None;
    }
    if n == 1 {
        return Some(i);
    }
    let half = n / 2;
    match last_kept(k, a, i + half, n - half) {
        Some(last) => Some(last),
        None => last_kept(k, a, i, half),
    }
}

/// The last cell of a window that is kept, the first being `first`.
fn last_from(k: &Cells, a: Span, first: u32) -> u32
    requires range { first < 64 }
    requires kept { keeps_in k.now (rows.cell a first) ≡ true }
    ensures { IsLast (keeps_in k.now) a first (64 - first) result }
{
    last_kept(k, a, first, CELLS - first).unwrap_or(first)
}

/// The hull of the cells of a window that are kept; Empty where none is.
fn pruned(k: &Cells, a: Span) -> Step<Span>
    ensures { result ≡ rows.pruned k.now.scale k.now.face k.now.zone2 k.now.line k.now.e a }
{
    match first_kept(k, a, 0, CELLS) {
        None => Step::Empty,
        Some(first) => {
            let last = last_from(k, a, first);
            Step::Val(block(a, first, last + 1 - first))
        }
    }
}

/// The window of z, pruned twice. A pruning that leaves it as it is would do so again.
pub(crate) fn twice_pruned(k: &Cells) -> Step<Span>
    ensures { result ≡ twice_pruned_row k.now }
{
    let first = val!(window(k));
    let second = val!(pruned(k, first));
    if second == first {
        return Step::Val(second);
    }
    pruned(k, second)
}
