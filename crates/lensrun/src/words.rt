//! The words of a call.

ghost use Rattle.std.specs.Prelude.{◌≡◌, map, IfSome, option_map};
ghost use Rattle.lensmodel.specs.Call.Glass as glass;
ghost use Rattle.lensmodel.specs.Call.Index as index;
ghost use Rattle.lensmodel.specs.Call.Inputs as files;
ghost use Rattle.lensmodel.specs.Call.Read as read;
ghost use Rattle.lensmodel.specs.Call.TopCall as top;
ghost use Rattle.lensrun.specs.Built.{command_of, is_built};
ghost use Rattle.lensrun.specs.Asked.{asked_if, inputs_if, HasWavelength, name_within};

use arrayvec::ArrayVec;
use exactdec::read;
use fixdec::dec::Dec;
use lensmodel::name::Name;

/// What the words of a call ask for.
#[derive(Debug, Drop)]
pub enum Command<'a> {
    /// `index AGF GLASS WAVE`: one refractive index.
    Index {
        /// The name of the catalogue's file.
        catalogue: &'a [u8],
        /// The name of the glass, each byte one unit.
        glass: Name,
        /// The wavelength in micrometres, above 0.
        wave: Dec,
    },
    /// `glass AGF`: the glasses of a catalogue.
    Glass {
        /// The name of the catalogue's file.
        catalogue: &'a [u8],
    },
    /// `read ZMX`: the prescription of a lens.
    Read {
        /// The name of the lens's file.
        lens: &'a [u8],
    },
    /// `trace ZMX AGF JOB [TOL]`: the rows of all rays of a job.
    Trace(Inputs<'a>),
    /// `trace-json ZMX AGF JOB [TOL]`: the same rows as JSON, a line each.
    TraceJson(Inputs<'a>),
    /// `first ZMX AGF JOB`: first-order values, and the trails of the job's paraxial rays.
    First(Inputs<'a>),
    /// `seidel ZMX AGF JOB`: the Seidel sums of the job's pairs of paraxial rays.
    Seidel(Inputs<'a>),
}

/// The names of the files of a lens, a catalogue and a job, and of a box.
#[derive(Clone, Copy, Debug, Drop)]
pub struct Inputs<'a> {
    /// The lens's.
    pub lens: &'a [u8],
    /// The catalogue's.
    pub catalogue: &'a [u8],
    /// The job's.
    pub job: &'a [u8],
    /// The box's, where there is one.
    pub tolerances: Option<&'a [u8]>,
}

/// The bytes as 16-bit units; None where there are more than `N`.
pub fn units<const N: usize>(bytes: &[u8]) -> Option<ArrayVec<u16, N>>
    ensures { result ≡ name_within N bytes.now }
{
    if N < bytes.len() {
        return None;
    }
    let mut all = ArrayVec::new();
    for byte in bytes {
        all.push(u16::from(*byte));
    }
    Some(all)
}

/// A decimal above 0.
fn above_zero(value: Option<Dec>) -> Option<Dec>
    ensures { result ≡ index.positive_if value }
{
    value.filter(|value| 0 < value.mant)
}

/// A decimal above 0 of at most 64 bytes.
fn positive(word: &[u8]) -> Option<Dec>
    ensures { result ≡ index.positive_decimal word.now }
{
    let letters: ArrayVec<u16, 64> = units(word)?;
    above_zero(read::read(letters.as_slice()).ok())
}

/// The words after `index`.
fn index_words(words: &[Vec<u8>]) -> Option<Command<'_>>
    ensures exact { asked_if result
        ≡ option_map top.index (index.index_words (map (λ w. w.items) words.now)) }
    ensures wave { IfSome result HasWavelength }
{
    let [catalogue, glass, wave] = words else {
        return None;
    };
    index_command(catalogue.as_slice(), glass.as_slice(), wave.as_slice())
}

/// A catalogue, a glass and a wavelength.
fn index_command<'a>(catalogue: &'a [u8], glass: &[u8], wave: &[u8]) -> Option<Command<'a>>
    ensures exact { asked_if result
        ≡ option_map top.index
        (index.index_if catalogue.now glass.now (index.positive_decimal wave.now)) }
    ensures wave { IfSome result HasWavelength }
{
    let wave = positive(wave)?;
    let glass = units(glass)?;
    Some(Command::Index {
        catalogue,
        glass,
        wave,
    })
}

/// The words after `glass`.
fn glass_words(words: &[Vec<u8>]) -> Option<Command<'_>>
    ensures exact { asked_if result
        ≡ option_map top.glass (glass.glass_words (map (λ w. w.items) words.now)) }
    ensures wave { IfSome result HasWavelength }
{
    let [catalogue] = words else {
        return None;
    };
    Some(Command::Glass {
        catalogue: catalogue.as_slice(),
    })
}

/// The words after `read`.
fn read_words(words: &[Vec<u8>]) -> Option<Command<'_>>
    ensures exact { asked_if result
        ≡ option_map top.read (read.read_words (map (λ w. w.items) words.now)) }
    ensures wave { IfSome result HasWavelength }
{
    let [lens] = words else {
        return None;
    };
    Some(Command::Read {
        lens: lens.as_slice(),
    })
}

/// The files of a trace.
fn input_names(words: &[Vec<u8>]) -> Option<Inputs<'_>>
    ensures { inputs_if result ≡ files.boxed_inputs (map (λ w. w.items) words.now) }
{
    let (lens, catalogue, job, tolerances) = match words {
        [lens, catalogue, job] => (lens, catalogue, job, None),
        [lens, catalogue, job, tolerances] => (lens, catalogue, job, Some(tolerances.as_slice())),
        _ => return None,
    };
    Some(Inputs {
        lens: lens.as_slice(),
        catalogue: catalogue.as_slice(),
        job: job.as_slice(),
        tolerances,
    })
}

/// The words after `trace`.
fn trace_words(words: &[Vec<u8>]) -> Option<Command<'_>>
    ensures exact { asked_if result
        ≡ option_map top.trace (files.boxed_inputs (map (λ w. w.items) words.now)) }
    ensures wave { IfSome result HasWavelength }
{
    Some(Command::Trace(input_names(words)?))
}

/// The words after `trace-json`.
fn json_words(words: &[Vec<u8>]) -> Option<Command<'_>>
    ensures exact { asked_if result
        ≡ option_map top.trace_json (files.boxed_inputs (map (λ w. w.items) words.now)) }
    ensures wave { IfSome result HasWavelength }
{
    Some(Command::TraceJson(input_names(words)?))
}

/// The files of a lens, a catalogue and a job.
fn three_names(words: &[Vec<u8>]) -> Option<Inputs<'_>>
    ensures { inputs_if result ≡ files.three_inputs (map (λ w. w.items) words.now) }
{
    let [lens, catalogue, job] = words else {
        return None;
    };
    Some(Inputs {
        lens: lens.as_slice(),
        catalogue: catalogue.as_slice(),
        job: job.as_slice(),
        tolerances: None,
    })
}

/// The words after `first`.
fn first_words(words: &[Vec<u8>]) -> Option<Command<'_>>
    ensures exact { asked_if result
        ≡ option_map top.first (files.three_inputs (map (λ w. w.items) words.now)) }
    ensures wave { IfSome result HasWavelength }
{
    Some(Command::First(three_names(words)?))
}

/// The words after `seidel`.
fn seidel_words(words: &[Vec<u8>]) -> Option<Command<'_>>
    ensures exact { asked_if result
        ≡ option_map top.seidel (files.three_inputs (map (λ w. w.items) words.now)) }
    ensures wave { IfSome result HasWavelength }
{
    Some(Command::Seidel(three_names(words)?))
}

/// The command that the words ask for; None where they fit no command.
pub fn command_of(words: &[Vec<u8>]) -> Option<Command<'_>>
    ensures exact { asked_if result ≡ command_of (map (λ w. w.items) words.now) }
    ensures wave { IfSome result HasWavelength }
{
    let (name, rest) = words.split_first()?;
    if name.as_slice() == b"index".as_slice() {
        index_words(rest)
    } else if name.as_slice() == b"glass".as_slice() {
        glass_words(rest)
    } else if name.as_slice() == b"read".as_slice() {
        read_words(rest)
    } else if name.as_slice() == b"trace".as_slice() {
        trace_words(rest)
    } else if name.as_slice() == b"trace-json".as_slice() {
        json_words(rest)
    } else if name.as_slice() == b"first".as_slice() {
        first_words(rest)
    } else if name.as_slice() == b"seidel".as_slice() {
        seidel_words(rest)
    } else {
        None
    }
}
