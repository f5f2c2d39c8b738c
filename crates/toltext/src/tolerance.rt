//! The tolerance of a record.

ghost use Rattle.std.specs.Prelude.{◌≡◌, length, None, Some, IfOk, IfErr, OnOk};
ghost use Rattle.lensmodel.specs.Files.Tolerances.{kind_of as kind_in, tol_of};
ghost use Rattle.toltext.specs.Records.{word_fault};

use lensmodel::fault::TolFault;
use lensmodel::tolerance::{Tol, TolKind};
use records::line::Line;
use records::word::is_word;

/// The greatest number of a surface.
const MAX_SURFACE: u32 = 65_535;

/// The tolerance of a TOL line, which has all its words and no more.
pub fn tolerance(at: u32, line: &Line<'_>) -> Result<Tol, TolFault>
    requires { length line.now ≡ 4 }
    ensures value { IfOk result (λ t. t ≡ tol_of line.now) }
    ensures sound { OnOk result (word_fault at line.now ≡ None) }
    ensures fault { IfErr result (λ f. word_fault at line.now ≡ Some f) }
{
    let kind = kind_of(line.known_word(1)).ok_or(TolFault::Word { line: at })?;
    let surface = line
        .whole(2, MAX_SURFACE)
        .map_err(|_| TolFault::BadNumber { line: at })?;
    let delta = line
        .number(3)
        .map_err(|_| TolFault::BadNumber { line: at })?;
    Ok(Tol {
        kind,
        surface,
        delta,
    })
}

/// The kind of a word.
fn kind_of(word: &[u16]) -> Option<TolKind>
    ensures { result ≡ kind_in word.now }
{
    if is_word(word, b"CURV") {
        return Some(TolKind::Curv);
    }
    if is_word(word, b"THIC") {
        return Some(TolKind::Thic);
    }
    if is_word(word, b"INDX") {
        return Some(TolKind::Indx);
    }
    None
}
