//! Scripts that edit a lens.

use crate::fault::TextFault;
use fixdec::dec::Dec;
use thiserror::Error;

/// A change of one field of a surface.
#[derive(Clone, Copy, Debug, PartialEq, Eq)]
pub enum Change {
    /// The curvature of a surface.
    Curv(u32, Dec),
    /// The conic constant of a surface.
    Coni(u32, Dec),
    /// The thickness behind a surface.
    Thic(u32, Dec),
    /// A coefficient of an even asphere: the surface, the number from 1 to 8, the value.
    Parm(u32, u32, Dec),
    /// The semi-diameter of a surface, which becomes a rim.
    Rim(u32, Dec),
}

/// One act of a script.
#[derive(Clone, Copy, Debug, PartialEq, Eq)]
pub enum Act {
    /// A change.
    Change(Change),
    /// The last change is taken back.
    Undo,
    /// The rows of the lens as it is now.
    Rows,
}

/// Why a script is refused.
#[derive(Clone, Copy, Debug, PartialEq, Eq, Drop, Error)]
pub enum ScriptFault {
    /// The text itself is at fault.
    #[error("{0}")]
    Text(TextFault),
    /// An unknown first word, or another count of words.
    #[error("line {line}: word")]
    Word { line: u32 },
    /// A word is no number of the form that its place needs.
    #[error("line {line}: bad number")]
    BadNumber { line: u32 },
    /// The surface is outside the range of its line.
    #[error("line {line}: no surface")]
    NoSurface { line: u32 },
    /// The surface has not the kind that the line needs, or the coefficient no number from 1 to 8.
    #[error("line {line}: kind")]
    Kind { line: u32 },
    /// A rim below 0.
    #[error("line {line}: negative")]
    Negative { line: u32 },
    /// A normalised coefficient above 10^9 in size.
    #[error("line {line}: coefficient")]
    Coefficient { line: u32 },
    /// No change is left to take back.
    #[error("line {line}: no undo")]
    NoUndo { line: u32 },
    /// The 1,001st act.
    #[error("line {line}: too many")]
    TooMany { line: u32 },
    /// There was no memory.
    #[error("out of memory")]
    Memory,
}
