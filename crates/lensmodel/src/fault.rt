//! Why an input is refused, and where. Lines, words and surfaces are numbered as in the file: lines
//! and words from 1, surfaces from 0.

use thiserror::Error;

/// What is wrong with the text of a file.
#[derive(Clone, Copy, Debug, PartialEq, Eq, Drop, Error)]
pub enum TextFault {
    /// An odd number of bytes after the mark FF FE.
    #[error("odd byte")]
    OddByte,
    /// A surrogate unit without its partner.
    #[error("line {line}: lone surrogate")]
    Surrogate { line: u32 },
    /// More than 4,096 units before the end of the line.
    #[error("line {line}: too long")]
    LongLine { line: u32 },
    /// There was no memory.
    #[error("out of memory")]
    Memory,
}

/// Why a lens file is refused.
#[derive(Clone, Copy, Debug, PartialEq, Eq, Drop, Error)]
pub enum ZmxFault {
    /// The text itself is at fault.
    #[error("{0}")]
    Text(TextFault),
    /// The mode is NSC.
    #[error("line {line}: not sequential")]
    NotSequential { line: u32 },
    /// The number of a SURF line is not the count of surfaces so far.
    #[error("line {line}: surface out of order")]
    SurfaceOrder { line: u32 },
    /// The 65th surface.
    #[error("line {line}: too many surfaces")]
    TooManySurfaces { line: u32 },
    /// A type other than STANDARD and EVENASPH.
    #[error("line {line}: surface type")]
    SurfaceType { line: u32 },
    /// A word that the record needs is missing.
    #[error("line {line}: missing word")]
    MissingWord { line: u32 },
    /// A word is no number of the form that its place needs.
    #[error("line {line} word {word}: bad number")]
    BadNumber { line: u32, word: u32 },
    /// A glass name of more than 40 units.
    #[error("line {line}: long name")]
    LongName { line: u32 },
    /// A model glass.
    #[error("line {line}: model glass")]
    ModelGlass { line: u32 },
    /// Fewer than 3 surfaces.
    #[error("too few surfaces")]
    TooFewSurfaces,
    /// Not exactly one surface is the stop.
    #[error("stop count")]
    StopCount,
    /// The object surface is a mirror.
    #[error("mirror at object")]
    MirrorAtObject,
    /// An infinite thickness between surface 1 and the image.
    #[error("surface {surface}: infinite thickness")]
    InnerInfinity { surface: u32 },
    /// An even asphere whose semi-diameter gives no zone.
    #[error("surface {surface}: no zone")]
    NoZone { surface: u32 },
    /// A normalised coefficient above 10^9 in size.
    #[error("surface {surface}: coefficient {i}")]
    Coefficient { surface: u32, i: u32 },
    /// There was no memory.
    #[error("out of memory")]
    Memory,
}

/// Why a catalogue is refused.
#[derive(Clone, Copy, Debug, PartialEq, Eq, Drop, Error)]
pub enum AgfFault {
    /// The text itself is at fault.
    #[error("{0}")]
    Text(TextFault),
    /// A CD or LD record before the first NM record.
    #[error("line {line}: orphan record")]
    OrphanRecord { line: u32 },
    /// A word that the record needs is missing.
    #[error("line {line}: missing word")]
    MissingWord { line: u32 },
    /// A word is no number of the form that its place needs.
    #[error("line {line} word {word}: bad number")]
    BadNumber { line: u32, word: u32 },
    /// A glass name of more than 40 units.
    #[error("line {line}: long name")]
    LongName { line: u32 },
    /// The 4,097th NM record.
    #[error("line {line}: too many glasses")]
    TooManyGlasses { line: u32 },
    /// There was no memory.
    #[error("out of memory")]
    Memory,
}

/// Why a job is refused.
#[derive(Clone, Copy, Debug, PartialEq, Eq, Drop, Error)]
pub enum JobFault {
    /// The text itself is at fault.
    #[error("{0}")]
    Text(TextFault),
    /// An unknown first word, a wrong count of words, or a second WAVE, RES or WIDTH.
    #[error("line {line}: word")]
    Word { line: u32 },
    /// A word is no number of the form that its place needs.
    #[error("line {line}: bad number")]
    BadNumber { line: u32 },
    /// AIM, FAN or SPOT before any PUPIL.
    #[error("line {line}: no pupil")]
    Missing { line: u32 },
    /// A number leaves its range.
    #[error("line {line}: range")]
    Range { line: u32 },
    /// More than 10,000 rays in all.
    #[error("too many rays")]
    TooManyRays,
    /// There was no memory.
    #[error("out of memory")]
    Memory,
}

/// Why a tolerance box is refused.
#[derive(Clone, Copy, Debug, PartialEq, Eq, Drop, Error)]
pub enum TolFault {
    /// The text itself is at fault.
    #[error("{0}")]
    Text(TextFault),
    /// Other words, or another count of them.
    #[error("line {line}: word")]
    Word { line: u32 },
    /// A word is no number of the form that its place needs.
    #[error("line {line}: bad number")]
    BadNumber { line: u32 },
    /// A deviation below 0.
    #[error("line {line}: negative")]
    Negative { line: u32 },
    /// The lens has no such surface for this kind.
    #[error("line {line}: no surface")]
    NoSurface { line: u32 },
    /// The same kind and surface stood before.
    #[error("line {line}: twice")]
    Twice { line: u32 },
    /// The 33rd tolerance.
    #[error("line {line}: too many")]
    TooMany { line: u32 },
    /// There was no memory.
    #[error("out of memory")]
    Memory,
}

/// Why files that are right by themselves do not fit together.
#[derive(Clone, Copy, Debug, PartialEq, Eq, Drop, Error)]
pub enum CrossFault {
    /// The catalogue has no glass of this name.
    #[error("surface {surface}: no glass")]
    NoGlass { surface: u32 },
    /// The glass has a formula other than 1 and 2.
    #[error("surface {surface}: formula")]
    Formula { surface: u32 },
    /// Neither the job nor the lens gives a wavelength.
    #[error("no wavelength")]
    NoWave,
    /// The wavelength is outside the range of the glass.
    #[error("surface {surface}: wavelength range")]
    WaveRange { surface: u32 },
    /// The index at scale 12 is not enclosed between 1 and 5.
    #[error("surface {surface}: bad index")]
    BadIndex { surface: u32 },
    /// A tolerance on index stands on a mirror.
    #[error("surface {surface}: index of a mirror")]
    MirrorIndex { surface: u32 },
}
