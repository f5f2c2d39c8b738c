//! What is kept of the scales that were tried.

ghost use Rattle.std.specs.Prelude.{◌≡◌, Some, IsSome};
ghost use Rattle.ladder.specs.Climbs.{kept_of};
ghost use Rattle.lensmodel.specs.Rows.Outcome as outcome;

use arrayvec::ArrayVec;
use lensmodel::row::{Place, Row, Word};

/// Whether a word says something of every chain.
pub(crate) fn is_definite(word: &Word) -> bool
    ensures { result ≡ outcome.is_definite word.now }
{
    matches!(
        word,
        Word::Passes | Word::Vignetted(_) | Word::Outside(_) | Word::Tir(_)
    )
}

/// Whether a word says that the arithmetic was lost.
pub(crate) fn is_lost(word: &Word) -> bool
    ensures { result ≡ outcome.is_lost word.now }
{
    matches!(word, Word::Lost(_, _))
}

/// Keeps the outcome of a greater scale as a row, unless it is lost and the row that is kept isn't.
#[tactic(auto, unfolding(crate::specs::Climbs::kept_of))]
pub(crate) fn keep(kept: &mut Option<Row>, scale: u32, word: Word, places: ArrayVec<Place, 64>)
    ensures { kept.new ≡ Some
        (kept_of kept.old (record { scale = scale; word = word; places = places })) }
{
    if let Some(old) = kept
        && is_lost(&word)
        && !is_lost(&old.word)
    {
        return;
    }
    *kept = Some(Row {
        scale,
        word,
        places,
    });
}

/// The row that is kept at last.
pub(crate) fn last(kept: Option<Row>) -> Row
    requires { IsSome kept }
    ensures { kept ≡ Some result }
{
    match kept {
        Some(row) => row,
        None => unreachable!(),
    }
}

/// Takes the outcome of one more scale: a definite one is the answer of the function that asks, and
/// another one may be kept.
macro_rules! rung {
    ($kept:ident, $scale:literal, $outcome:expr) => {
        let (word, places) = $outcome;
        if $crate::kept::is_definite(&word) {
            return Row {
                scale: $scale,
                word,
                places,
            };
        }
        $crate::kept::keep(&mut $kept, $scale, word, places);
    };
}

pub(crate) use rung;
