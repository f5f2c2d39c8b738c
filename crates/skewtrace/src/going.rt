//! How walks go on.

use lensmodel::row::Word;
use sagform::ray::Ray;

/// How a walk goes on after a surface.
pub(crate) enum Going<T> {
    /// With the ray that leaves the surface.
    On(Ray<T>),
    /// Not at all: the image was reached.
    Image,
    /// Not at all, by the word.
    Ended(Word),
}
