//! The coefficients of the even terms.

ghost use Rattle.std.specs.Prelude.{List, [], ◌∷◌};
ghost use Rattle.sagform.specs.Used.{AreZeroFrom};

use enclose::arith::Arith;
use std::marker::Model;

/// The coefficients `b1` to `b8` of the even terms of a prepared surface. Contracts see their list.
#[derive(Drop)]
pub(crate) struct Terms<T: Arith> {
    pub(crate) b1: T,
    pub(crate) b2: T,
    pub(crate) b3: T,
    pub(crate) b4: T,
    pub(crate) b5: T,
    pub(crate) b6: T,
    pub(crate) b7: T,
    pub(crate) b8: T,
    // past this many each coefficient is zero
    pub(crate) used: usize,
}

impl<T: Arith> Model for Terms<T> {
    ghost Value = { List T };

    ghost view = { λ f. f.b1 ∷ f.b2 ∷ f.b3 ∷ f.b4 ∷ f.b5 ∷ f.b6 ∷ f.b7 ∷ f.b8 ∷ [] };

    ghost invariant = { λ f. AreZeroFrom T.ops f.used
        (f.b1 ∷ f.b2 ∷ f.b3 ∷ f.b4 ∷ f.b5 ∷ f.b6 ∷ f.b7 ∷ f.b8 ∷ []) };
}
