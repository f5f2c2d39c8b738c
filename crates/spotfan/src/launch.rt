//! The rays that a line of a job asks for.

ghost use Rattle.std.specs.Prelude.{◌≡◌, ◌+◌, ◌*◌, ◌<◌, ◌≤◌, ℤ, pos, ◌-ℤ◌, Some, IsTrue, slice_get};
ghost use Rattle.lensmodel.specs.Setup.Launches as launches;
ghost use Rattle.lensmodel.specs.Setup.Ranges.{is_ask};
ghost use Rattle.lensmodel.specs.Setup.Ratio.{Ratio as Fraction};
ghost use Rattle.lensmodel.specs.declared.launch.Launch.{Launch as Start};

use fixdec::dec::Dec;
use lensmodel::job::Ask;
use lensmodel::launch::{Launch, Ratio};

/// How many rays a line of a job asks for; its numbers are in their ranges.
#[tactic(auto, unfolding(lensmodel::specs::Setup::Launches::count))]
pub fn count(a: &Ask) -> u32
    requires { IsTrue (is_ask a.now) }
    ensures { result ≡ launches.count a.now }
{
    match a {
        Ask::Ray { .. } | Ask::Aim { .. } => 1,
        Ask::Fan { n, .. } => 2 * side(*n),
        Ask::Spot { n, .. } => side(*n) * side(*n),
        Ask::First { .. } | Ask::Seidel { .. } => 0,
    }
}

/// Ray `i` of those that a line of a job asks for, counted from 0; `i` is below their count, and the
/// line's numbers are in their ranges.
pub fn launch(a: &Ask, i: u32) -> Launch
    requires ask { IsTrue (is_ask a.now) }
    requires number { i < launches.count a.now }
    ensures { slice_get (launches.launches a.now) i ≡ Some result }
{
    match *a {
        Ask::Ray { x, y, p, q } => Launch::Plain { x, y, p, q },
        Ask::Aim { p, q, px, py, z, r } => Launch::Pupil {
            p,
            q,
            px: whole_ratio(px),
            py: whole_ratio(py),
            z,
            r,
        },
        Ask::Fan { p, q, n, z, r } => {
            let (px, py) = fan_point(n, i);
            Launch::Pupil { p, q, px, py, z, r }
        }
        Ask::Spot { p, q, n, z, r } => {
            let (px, py) = grid_point(n, i);
            Launch::Pupil { p, q, px, py, z, r }
        }
        Ask::First { .. } | Ask::Seidel { .. } => unreachable!(),
    }
}

/// How many rays stand side by side from `-n` to `n`.
fn side(n: u32) -> u32
    requires { n ≤ 1000 }
    ensures { result ≡ 2 * n + 1 }
{
    2 * n + 1
}

/// A decimal as a fraction.
fn whole_ratio(num: Dec) -> Ratio
    ensures { result ≡ launches.plain_ratio num }
{
    Ratio { num, den: 1 }
}

/// The part `k / n` of a pupil's radius, `k` being `i - n`.
fn part(n: u32, i: u32) -> Ratio
    requires some { 1 ≤ n }
    requires most { n ≤ 1000 }
    requires number { i ≤ 2 * n }
    ensures { result ≡ launches.part n (pos i -ℤ pos n) }
{
    Ratio {
        num: Dec {
            mant: i128::from(i) - i128::from(n),
            exp: 0,
        },
        den: n,
    }
}

/// The pupil coordinates of ray `i` of a fan: first along y, then along x.
fn fan_point(n: u32, i: u32) -> (Ratio, Ratio)
    requires some { 1 ≤ n }
    requires most { n ≤ 1000 }
    requires number { i < 2 * (2 * n + 1) }
    ensures { (through : Fraction → Fraction → Start)
        → slice_get (launches.fan through n) i ≡ Some (through result.0 result.1) }
{
    let middle = whole_ratio(Dec { mant: 0, exp: 0 });
    if i < side(n) {
        (middle, part(n, i))
    } else {
        (part(n, i - side(n)), middle)
    }
}

/// The pupil coordinates of ray `i` of a grid, x being the outer one and y the inner one.
fn grid_point(n: u32, i: u32) -> (Ratio, Ratio)
    requires some { 1 ≤ n }
    requires most { n ≤ 60 }
    requires number { i < (2 * n + 1) * (2 * n + 1) }
    ensures { (through : Fraction → Fraction → Start)
        → slice_get (launches.grid through n) i ≡ Some (through result.0 result.1) }
{
    (part(n, i / side(n)), part(n, i % side(n)))
}

#[cfg(test)]
mod tests {
    use super::*;
    use std::process::Abort;

    const ZERO: Dec = Dec { mant: 0, exp: 0 };

    /// The pupil coordinates of a ray, each as a numerator and a denominator.
    fn point(l: &Launch) -> (i128, u32, i128, u32) {
        match l {
            Launch::Plain { .. } => (0, 0, 0, 0),
            Launch::Pupil { px, py, .. } => (px.num.mant, px.den, py.num.mant, py.den),
        }
    }

    /// Asserts the pupil coordinates of all rays of a line.
    fn assert_points(rt: &impl Abort, a: &Ask, points: &[(i128, u32, i128, u32)])
        requires { IsTrue (is_ask a.now) }
    {
        assert_eq!(rt; count(a) as usize, points.len());
        for (i, expected) in points.iter().enumerate() {
            assert_eq!(rt; point(&launch(a, i as u32)), *expected);
        }
    }

    /// How many rays of a line have the pupil coordinate 0 in x.
    fn count_in_middle(a: &Ask) -> u32
        requires { IsTrue (is_ask a.now) }
    {
        let mut found = 0_u32;
        for i in 0..count(a) {
            if point(&launch(a, i)).0 == 0 {
                found = found.wrapping_add(1);
            }
        }
        found
    }

    fn fan(n: u32) -> Ask
        requires low { 1 ≤ n }
        requires high { n ≤ 1000 }
        ensures { IsTrue (is_ask result) }
    {
        Ask::Fan {
            p: ZERO,
            q: ZERO,
            n,
            z: ZERO,
            r: ZERO,
        }
    }

    fn spot(n: u32) -> Ask
        requires low { 1 ≤ n }
        requires high { n ≤ 60 }
        ensures { IsTrue (is_ask result) }
    {
        Ask::Spot {
            p: ZERO,
            q: ZERO,
            n,
            z: ZERO,
            r: ZERO,
        }
    }

    #[test]
    fn a_fan_goes_along_y_and_then_along_x(rt: HostRuntime) {
        let points = [
            (0, 1, -2, 2),
            (0, 1, -1, 2),
            (0, 1, 0, 2),
            (0, 1, 1, 2),
            (0, 1, 2, 2),
            (-2, 2, 0, 1),
            (-1, 2, 0, 1),
            (0, 2, 0, 1),
            (1, 2, 0, 1),
            (2, 2, 0, 1),
        ];
        assert_points(&rt, &fan(2), &points);
    }

    #[test]
    fn a_grid_has_x_outside_and_y_inside(rt: HostRuntime) {
        let points = [
            (-1, 1, -1, 1),
            (-1, 1, 0, 1),
            (-1, 1, 1, 1),
            (0, 1, -1, 1),
            (0, 1, 0, 1),
            (0, 1, 1, 1),
            (1, 1, -1, 1),
            (1, 1, 0, 1),
            (1, 1, 1, 1),
        ];
        assert_points(&rt, &spot(1), &points);
    }

    #[test]
    fn ten_thousand_rays_one_by_one(rt: HostRuntime) {
        let lines = [
            spot(49),
            fan(49),
            Ask::Ray {
                x: ZERO,
                y: ZERO,
                p: ZERO,
                q: ZERO,
            },
        ];
        assert_eq!(rt; count(&lines[0]), 9801);
        assert_eq!(rt; count(&lines[1]), 198);
        assert_eq!(rt; count(&lines[2]), 1);
        assert_eq!(rt; count_in_middle(&lines[0]), 99);
        assert_eq!(rt; count_in_middle(&lines[1]), 100);
        assert_eq!(rt; count_in_middle(&lines[2]), 1);
    }
}
