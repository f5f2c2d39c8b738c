//! What is said of one ray.

ghost use Rattle.std.specs.Prelude.{◌≡◌};

use arrayvec::ArrayVec;
use fixdec::span::Span;
use fixdec::step::Why;

/// The word of a ray, with the surface that it speaks of.
#[derive(Clone, Copy, Debug, PartialEq, Eq)]
pub enum Word {
    /// Every chain clears every rim.
    Passes,
    /// No chain clears the surface.
    Vignetted(u32),
    /// No chain reaches the surface.
    Outside(u32),
    /// No chain leaves the surface.
    Tir(u32),
    /// The intervals of rho and of the rim's square overlap at the surface.
    Undecided(u32, Span, Span),
    /// Some interval is wider than the bound.
    Wide,
    /// The arithmetic is lost at the surface, and why.
    Lost(u32, Why),
}

/// The direction in which a ray leaves a surface: its direction cosines.
#[derive(Clone, Copy, Debug, PartialEq, Eq, Default)]
pub struct Heading {
    /// The direction cosine along x.
    pub l: Span,
    /// The direction cosine along y.
    pub m: Span,
    /// The direction cosine along z.
    pub n: Span,
}

/// Where a ray meets a surface, from the surface's vertex, in lens units at the row's scale.
#[derive(Clone, Copy, Debug, PartialEq, Eq, Default)]
pub struct Place {
    /// The square of the distance from the axis, in squared lens units.
    pub rho: Span,
    /// The height in x.
    pub x: Span,
    /// The height in y.
    pub y: Span,
    /// The sag.
    pub z: Span,
    /// The optical path from the vertex plane of surface 1.
    pub path: Span,
    /// The direction in which the ray leaves, where it goes on.
    pub heading: Option<Heading>,
}

/// What is said of one ray: the scale of its numbers, its word, and its places from surface 1 on.
#[derive(Debug, PartialEq, Eq, Drop)]
pub struct Row {
    /// The scale: 6, 9, 12 or 15.
    pub scale: u32,
    /// What is said of every chain.
    pub word: Word,
    /// The places, from surface 1 on.
    pub places: ArrayVec<Place, 64>,
}

impl Row {
    /// The same row, copied without taking memory.
    pub fn copy(&self) -> Row
        ensures { result ≡ self.now }
    {
        let mut places: ArrayVec<Place, 64> = ArrayVec::new();
        let _ = places.try_extend_from_slice(self.places.as_slice());
        Row {
            scale: self.scale,
            word: self.word,
            places,
        }
    }
}
