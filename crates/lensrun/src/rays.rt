//! The lines of traced rays, gathered.

ghost use Rattle.std.specs.Prelude.{◌≡◌, ◌++◌, ◌-◌, ◌≤◌, length, if◌then◌else◌, OnOk, OnErr};
ghost use Rattle.lensio.specs.Count.{Rose};
ghost use Rattle.lensio.specs.Taken.{TakesFront};
ghost use Rattle.lensmodel.specs.Texts.Rows.{all_places, ray_lines};
ghost use Rattle.lensrun.specs.Gathered.{Gathers};

use crate::report::{Piece, gather_line};
use lensio::shelf::Failed;
use lensio::sink::Sink;
use lensmodel::row::{Place, Row};
use lensreport::pieces::Line;
use lensreport::rows::{print_place, print_ray};

/// Adds the lines of some places to what is gathered, the first being that of surface `first`.
fn gather_places<K: Sink>(
    scale: u32,
    first: u32,
    places: &[Place],
    piece: &mut Piece,
    out: &mut K,
) -> Result<(), Failed>
    requires low { 1 ≤ scale }
    requires high { scale ≤ 15 }
    requires first { first ≤ 64 }
    requires few { length places.now ≤ 64 }
    ensures ok { OnOk result
        (Gathers (K.taken out.old) (K.taken out.new) piece.new.bytes
        (piece.old.bytes ++ all_places scale first places.now)) }
    ensures front { OnErr result
        (TakesFront (K.taken out.old) (K.taken out.new)
        (piece.old.bytes ++ all_places scale first places.now)) }
    ensures failed { OnErr result (Rose (K.faults out.old) (K.faults out.new)) }
    ensures taken { OnOk result (K.faults out.new ≡ K.faults out.old) }
{
    let mut line = Line::new();
    for (j, place) in places.iter().enumerate() {
        line.clear();
        print_place(scale, first + j as u32, place, &mut line);
        gather_line(&line, piece, out)?;
    }
    Ok(())
}

/// Adds the lines of ray `i` to what is gathered: its own, and those of all its places where it is asked
/// for by itself, else of its last place.
pub(crate) fn gather_ray<K: Sink>(
    single: bool,
    i: u32,
    row: &Row,
    piece: &mut Piece,
    out: &mut K,
) -> Result<(), Failed>
    requires low { 1 ≤ row.now.scale }
    requires high { row.now.scale ≤ 15 }
    ensures ok { OnOk result
        (Gathers (K.taken out.old) (K.taken out.new) piece.new.bytes
        (piece.old.bytes ++ ray_lines single i row.now)) }
    ensures front { OnErr result
        (TakesFront (K.taken out.old) (K.taken out.new)
        (piece.old.bytes ++ ray_lines single i row.now)) }
    ensures failed { OnErr result (Rose (K.faults out.old) (K.faults out.new)) }
    ensures taken { OnOk result (K.faults out.new ≡ K.faults out.old) }
{
    let mut line = Line::new();
    print_ray(i, row, &mut line);
    gather_line(&line, piece, out)?;
    let places = row.places.as_slice();
    let first = first_shown(single, places.len());
    gather_places(row.scale, first as u32 + 1, &places[first..], piece, out)
}

/// The first place of a ray that is shown, of so many.
fn first_shown(single: bool, places: usize) -> usize
    ensures { result ≡ (if single then 0 else places - 1) }
{
    if single { 0 } else { places.saturating_sub(1) }
}
