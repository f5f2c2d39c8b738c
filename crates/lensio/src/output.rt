//! Where the system's output goes.

ghost use Rattle.std.specs.Prelude.{IsSome, refl};

use std::alloc::Allocator;
use std::io::{Print, Printer, Write};

/// A writer that tells the bytes that it holds at each time, or at none.
pub trait Output: Write {
    /// What tells its bytes once tells them always.
    ghost steady: { (before now : Self) → IsSome (Self.contents now)
        → IsSome (Self.contents before) };
}

impl<P: Print> Output for Printer<'_, P> {
    ghost steady = { λ _ _ told. told };
}

impl<A: Allocator> Output for Vec<u8, A> {
    ghost steady = { λ _ _ _. refl };
}
