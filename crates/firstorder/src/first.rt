//! The first-order values of a lens.

ghost use Rattle.std.specs.Prelude.{◌≡◌, ℤ, ◌<◌, ◌≤◌, ◌∷◌, ◌++◌, [], length};
ghost use Rattle.fixdec.specs.IntervalOperations.{operations};
ghost use Rattle.lensmodel.specs.Paraxial.FirstOrder.{FirstChain, HoldsFirst, IsFirstChain};
ghost use Rattle.lensmodel.specs.Paraxial.FirstOrderRows as rows;
ghost use Rattle.lensmodel.specs.Paraxial.Losses as losses;
ghost use Rattle.lensmodel.specs.Rows.Constants.{residual_units as units_of_residual};
ghost use Rattle.lensmodel.specs.Setup.WellFormed.{IsWellFormed};
ghost use Rattle.lensmodel.specs.declared.setup.Setup.{Setup};

use crate::ray::{Track, ray_through};
use crate::values::{FirstRows, values_of};
use crate::worked::hull_of;
use enclose::arith::Arith;
use enclose::iv::Iv;
use fixdec::dec::Dec;
use lensmodel::paraxial::FirstOut;
use lensmodel::setup::Setup;

/// The values at one scale.
#[derive(Drop)]
struct Attempt {
    /// The values.
    out: FirstOut,
    /// Whether one of their rows is lost because a number passed the cap.
    by_range: bool,
}

/// Whether one of the six values is lost because a number passed the cap.
fn is_by_range<T: Arith>(v: &FirstRows<T>) -> bool
    ensures { result ≡ losses.some_by_range
        (v.now.efl ∷ v.now.bfl ∷ v.now.ffl ∷ v.now.back ∷ v.now.front ∷ v.now.enp ∷ []) }
{
    v.efl.is_by_range()
        || v.bfl.is_by_range()
        || v.ffl.is_by_range()
        || v.back.is_by_range()
        || v.front.is_by_range()
        || v.enp.is_by_range()
}

/// The values and the trail as they are handed out.
fn out_of<const S: u32>(v: &FirstRows<Iv<S>>, asked: &Track<S>) -> FirstOut
    requires scale { S ≤ 15 }
    requires some { 0 < length asked.now }
    requires room { length asked.now < 64 }
    ensures { (s : Setup) (e : ℤ) → result ≡ rows.first_out (operations S) S s e v.now asked.now }
{
    FirstOut {
        scale: S,
        efl: hull_of(v.efl),
        bfl: hull_of(v.bfl),
        ffl: hull_of(v.ffl),
        front: hull_of(v.front),
        back: hull_of(v.back),
        enp: hull_of(v.enp),
        trail: asked.trail(),
    }
}

/// Whether a row of the rays or of the values is lost because a number passed the cap.
fn is_lost_by_range<const S: u32>(
    a: &Track<S>,
    b: &Track<S>,
    asked: &Track<S>,
    v: &FirstRows<Iv<S>>,
) -> bool
    ensures { result ≡ losses.some_by_range
        (rows.rows_of a.now ++ rows.rows_of b.now ++ rows.rows_of asked.now
        ++ (v.now.efl ∷ v.now.bfl ∷ v.now.ffl ∷ v.now.back ∷ v.now.front ∷ v.now.enp ∷ [])) }
{
    let of_a = a.is_by_range();
    let of_b = b.is_by_range();
    let of_asked = asked.is_by_range();
    let of_values = is_by_range(v);
    of_a | of_b | of_asked | of_values
}

/// The rows of the values and of the trail at one scale.
#[tactic(auto, unfolding(lensmodel::specs::Paraxial::FirstOrderRows::first_attempt))]
fn rows_of<const S: u32>(s: &Setup, y: &Dec, u: &Dec) -> Attempt
    requires scale { S ≤ 15 }
    requires well { IsWellFormed s.now }
    ensures out { result.out
        ≡ (rows.first_attempt (operations S) S s.now
        (units_of_residual S s.now.res) y.now u.now).out }
    ensures by_range { result.by_range
        ≡ (rows.first_attempt (operations S) S s.now
        (units_of_residual S s.now.res) y.now u.now).by_range }
{
    let zero = Dec { mant: 0, exp: 0 };
    let one = Dec { mant: 1, exp: 0 };
    let a = ray_through::<S>(s, 0, &one, &zero);
    let b = ray_through::<S>(s, 1, &zero, &one);
    let asked = ray_through::<S>(s, 2, y, u);
    let v = values_of(s, &a, &b);
    let by_range = is_lost_by_range(&a, &b, &asked, &v);
    Attempt {
        out: out_of(&v, &asked),
        by_range,
    }
}

/// The values at one scale, and the trail of the ray that arrives at surface 1 with height `y` and
/// slope `u`.
fn values_at_scale<const S: u32>(s: &Setup, y: &Dec, u: &Dec) -> Attempt
    requires scale { S ≤ 15 }
    requires well { IsWellFormed s.now }
    ensures out { result.out
        ≡ (rows.first_attempt (operations S) S s.now
        (units_of_residual S s.now.res) y.now u.now).out }
    ensures by_range { result.by_range
        ≡ (rows.first_attempt (operations S) S s.now
        (units_of_residual S s.now.res) y.now u.now).by_range }
    ensures encloses { (c : FirstChain) → IsFirstChain s.now y.now u.now c
        → HoldsFirst s.now result.out c }
{
    rows_of::<S>(s, y, u)
}

/// The first-order values of a lens, and the trail of the ray that arrives at surface 1 with height
/// `y`, in lens units, and slope `u`: at the greatest of the scales 15, 12 and 9 at which no row is
/// lost because a number passed the cap, else at scale 6. Tolerances move nothing.
pub fn first_order(s: &Setup, y: &Dec, u: &Dec) -> FirstOut
    requires { IsWellFormed s.now }
    ensures exact { result ≡ rows.first_order s.now y.now u.now }

    // Each value lies in its interval, for every index within the residual and every two rays that
    // meet the paraxial equations within it.
    ensures encloses { (c : FirstChain) → IsFirstChain s.now y.now u.now c
        → HoldsFirst s.now result c }
{
    let at_15 = values_at_scale::<15>(s, y, u);
    if !at_15.by_range {
        return at_15.out;
    }
    let at_12 = values_at_scale::<12>(s, y, u);
    if !at_12.by_range {
        return at_12.out;
    }
    let at_9 = values_at_scale::<9>(s, y, u);
    if !at_9.by_range {
        return at_9.out;
    }
    values_at_scale::<6>(s, y, u).out
}
