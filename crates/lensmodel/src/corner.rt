//! Path differences and corners of a box.

use fixdec::span::Span;
use fixdec::step::Why;

/// The difference of a ray's path and its chief ray's.
#[derive(Clone, Copy, Debug, PartialEq, Eq)]
pub enum Wave {
    /// The scale and the interval, in lens units.
    Val(u32, Span),
    /// The ray misses the reference sphere: the scale.
    Missed(u32),
    /// The arithmetic is lost: the scale and why.
    Lost(u32, Why),
    /// No scale reaches the image for both rays.
    Unreached,
}

/// What the run at one corner of a box shows.
#[derive(Clone, Copy, Debug, PartialEq, Eq)]
pub enum Corner {
    /// A chain that clears every rim.
    Clear,
    /// A chain that doesn't.
    Blocked,
    /// A chain of which neither is certain.
    Unsure,
    /// No chain.
    NotSeen,
}
