//! The writing of first-order values.

ghost use Rattle.std.specs.Prelude.{◌≡◌, ◌++◌, ◌≤◌, All, length, OnOk, OnErr};
ghost use Rattle.lensio.specs.Count.{Rose};
ghost use Rattle.lensio.specs.Taken.{Takes, TakesFront};
ghost use Rattle.lensmodel.specs.Call.First.{FirstHolds, firsts, first_text, trails};
ghost use Rattle.lensmodel.specs.Setup.WellFormed.{IsWellFormed};
ghost use Rattle.lensmodel.specs.Texts.FirstOrder.{first_trail, trail_lines};
ghost use Rattle.lensrun.specs.Due.{ValuesHold};
ghost use Rattle.lensrun.specs.Gathered.{Gathers};

use crate::report::{Piece, gather_line};
use firstorder::first::first_order;
use fixdec::dec::Dec;
use fixdec::span::Span;
use fixdec::step::Step;
use lensio::shelf::Failed;
use lensio::sink::Sink;
use lensio::transfer::put;
use lensmodel::job::{Ask, Job};
use lensmodel::paraxial::FirstOut;
use lensmodel::setup::Setup;
use lensreport::first::{print_first_head, print_trail_head, print_trail_line};
use lensreport::pieces::Line;

const ONE: Dec = Dec { mant: 1, exp: 0 };

const ZERO: Dec = Dec { mant: 0, exp: 0 };

/// Writes the report of first-order values: the six values, and the trail of each paraxial ray of
/// the job. No memory is taken.
pub(crate) fn write_first<K: Sink>(s: &Setup, job: &Job, out: &mut K) -> Result<(), Failed>
    requires well { IsWellFormed s.now }
    ensures ok { OnOk result
        (Takes (K.taken out.old) (K.taken out.new) (first_text s.now job.now)) }
    ensures front { OnErr result
        (TakesFront (K.taken out.old) (K.taken out.new) (first_text s.now job.now)) }
    ensures failed { OnErr result (Rose (K.faults out.old) (K.faults out.new)) }
    ensures taken { OnOk result (K.faults out.new ≡ K.faults out.old) }
    // Every paraxial chain lies in the printed intervals.
    ensures holds { OnOk result (ValuesHold s.now job.now) }
{
    let (mut piece, mut line) = (Piece::new(), Line::new());
    print_first_head(&first_order(s, &ONE, &ZERO), &mut line);
    gather_line(&line, &mut piece, out)?;
    gather_trails(s, job.asks.as_slice(), &mut piece, out)?;
    put(out, piece.as_str().as_bytes())
}

/// Adds the trails of the paraxial rays of a job to what is gathered, numbered from 1 on.
fn gather_trails<K: Sink>(
    s: &Setup,
    asks: &[Ask],
    piece: &mut Piece,
    out: &mut K,
) -> Result<(), Failed>
    requires well { IsWellFormed s.now }
    ensures ok { OnOk result
        (Gathers (K.taken out.old) (K.taken out.new) piece.new.bytes
        (piece.old.bytes ++ trails s.now 1 (firsts asks.now))) }
    ensures front { OnErr result
        (TakesFront (K.taken out.old) (K.taken out.new)
        (piece.old.bytes ++ trails s.now 1 (firsts asks.now))) }
    ensures failed { OnErr result (Rose (K.faults out.old) (K.faults out.new)) }
    ensures taken { OnOk result (K.faults out.new ≡ K.faults out.old) }
    ensures holds { OnOk result (All (FirstHolds s.now) (firsts asks.now)) }
{
    let mut i = 1;
    for ask in asks {
        if let Ask::First { y, u } = ask {
            gather_trail(i, &first_order(s, y, u), piece, out)?;
            i += 1;
        }
    }
    Ok(())
}

/// Adds the trail of ray `i` to what is gathered.
fn gather_trail<K: Sink>(
    i: u64,
    values: &FirstOut,
    piece: &mut Piece,
    out: &mut K,
) -> Result<(), Failed>
    requires low { 1 ≤ values.now.scale }
    requires high { values.now.scale ≤ 15 }
    ensures ok { OnOk result
        (Gathers (K.taken out.old) (K.taken out.new) piece.new.bytes
        (piece.old.bytes ++ first_trail i values.now)) }
    ensures front { OnErr result
        (TakesFront (K.taken out.old) (K.taken out.new)
        (piece.old.bytes ++ first_trail i values.now)) }
    ensures failed { OnErr result (Rose (K.faults out.old) (K.faults out.new)) }
    ensures taken { OnOk result (K.faults out.new ≡ K.faults out.old) }
{
    let mut line = Line::new();
    print_trail_head(i, values.scale, &mut line);
    gather_line(&line, piece, out)?;
    gather_heights(values.scale, values.trail.as_slice(), piece, out)
}

/// Adds the lines of the heights and slopes of a ray, from surface 1 on, to what is gathered.
fn gather_heights<K: Sink>(
    scale: u32,
    trail: &[(Step<Span>, Step<Span>)],
    piece: &mut Piece,
    out: &mut K,
) -> Result<(), Failed>
    requires low { 1 ≤ scale }
    requires high { scale ≤ 15 }
    requires few { length trail.now ≤ 64 }
    ensures ok { OnOk result
        (Gathers (K.taken out.old) (K.taken out.new) piece.new.bytes
        (piece.old.bytes ++ trail_lines scale 1 trail.now)) }
    ensures front { OnErr result
        (TakesFront (K.taken out.old) (K.taken out.new)
        (piece.old.bytes ++ trail_lines scale 1 trail.now)) }
    ensures failed { OnErr result (Rose (K.faults out.old) (K.faults out.new)) }
    ensures taken { OnOk result (K.faults out.new ≡ K.faults out.old) }
{
    let mut line = Line::new();
    for (j, at) in trail.iter().enumerate() {
        line.clear();
        print_trail_line(scale, 1 + j as u32, at, &mut line);
        gather_line(&line, piece, out)?;
    }
    Ok(())
}
