//! Whether a ray's chain was shown to exist.

use fixdec::span::Span;

/// Which equation or condition of a chain failed.
#[derive(Clone, Copy, Debug, PartialEq, Eq)]
pub enum EqName {
    /// The index of a medium.
    Index,
    /// The start of the ray.
    Start,
    /// The transfer in x.
    X,
    /// The transfer in y.
    Y,
    /// The transfer in z.
    Z,
    /// The optical path.
    Path,
    /// The conic.
    Conic,
    /// The sag of an even asphere.
    Sag,
    /// The normal's slope.
    Normal,
    /// The normal's length.
    G,
    /// The cosine of incidence.
    Cos,
    /// Snell's law.
    Snell,
    /// The direction along x.
    L,
    /// The direction along y.
    M,
    /// The direction along z.
    N,
    /// An exact condition: a sign, a branch or a zone.
    Side,
}

/// The answer of a point run.
#[derive(Clone, Copy, Debug, PartialEq, Eq)]
pub enum Seen {
    /// The points are a chain.
    Yes,
    /// At the surface the equation's residual is too great, and what it is.
    Unseen(u32, EqName, Span),
    /// At the surface no points could be made, or no residual.
    Stuck(u32),
}
