//! Places of a ray, and what their rims say of it.

ghost use Rattle.std.specs.Prelude.{◌≡◌, ◌<◌, ◌≤◌, ◌++◌, ◌∷◌, [], length};
ghost use Rattle.lensmodel.specs.declared.row.Place.{Place};
ghost use Rattle.skewtrace.specs.Turns as turns;
ghost use Rattle.skewtrace.specs.Words as words;

use arrayvec::ArrayVec;
use enclose::arith::Arith;
use fixdec::span::Span;
use lensmodel::row::{Heading, Place, Row, Word};
use sagform::ray::{Dir, Hit};

/// The heading of a direction.
pub(crate) fn heading_of<T: Arith>(d: &Dir<T>) -> Heading
    requires { T.SCALE ≤ 15 }
    ensures { result ≡ record {
      l = T.ops.hull d.now.l;
      m = T.ops.hull d.now.m;
      n = T.ops.hull
          d.now.n;
    } }
{
    Heading {
        l: d.l.hull(),
        m: d.m.hull(),
        n: d.n.hull(),
    }
}

/// The interval of a value that is there.
pub(crate) fn hull_if<T: Arith>(v: &Option<T>) -> Option<Span>
    requires { T.SCALE ≤ 15 }
    ensures { result ≡ turns.hull_if T.ops.hull v.now }
{
    match v {
        None => None,
        Some(v) => Some(v.hull()),
    }
}

/// Whether the least rho lies above the greatest square of the rim.
pub(crate) fn is_clipped(rho: Span, rim2: &Option<Span>) -> bool
    ensures { result ≡ turns.is_clipped rho rim2.now }
{
    match rim2 {
        None => false,
        Some(rim2) => rim2.hi < rho.lo,
    }
}

/// The word of the rims up to surface `j`, from the word of those before it.
fn noted(rims: Word, j: u32, rho: Span, rim2: Option<Span>) -> Word
    ensures { (place : Place) → place.rho ≡ rho
        → result ≡ words.noted rims j (record { place = place; rim2 = rim2 }) }
{
    match (rims, rim2) {
        (Word::Passes, Some(rim2)) if rim2.lo < rho.hi => Word::Undecided(j, rho, rim2),
        _ => rims,
    }
}

/// Empties a row, and gives it a word.
pub(crate) fn empty(word: Word, row: &mut Row)
    ensures word { row.new.word ≡ word }
    ensures places { row.new.places.items ≡ [] }
{
    row.word = word;
    row.places.clear();
}

/// Adds the place of the point on surface `j` to the row of a walk. Until the walk ends the row's word
/// is that of the rims: passes, or undecided at the first surface whose rim isn't certainly cleared.
pub(crate) fn add<T: Arith>(
    row: &mut Row,
    j: u32,
    h: &Hit<T>,
    heading: Option<Heading>,
    rim2: Option<Span>,
)
    requires scale { T.SCALE ≤ 15 }
    requires room { length row.old.places.items < 64 }
    ensures word { row.new.word
        ≡ words.noted row.old.word j
        (record { place = turns.place_with T.ops.hull h.now heading; rim2 = rim2 }) }
    ensures places { row.new.places.items ≡ row.old.places.items
        ++ turns.place_with T.ops.hull h.now heading ∷ [] }
{
    let rho = h.rho.hull();
    row.word = noted(row.word, j, rho, rim2);
    row.places.push(Place {
        rho,
        x: h.x.hull(),
        y: h.y.hull(),
        z: h.z.hull(),
        path: h.path.hull(),
        heading,
    });
}
