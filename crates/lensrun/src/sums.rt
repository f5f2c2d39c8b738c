//! The writing of Seidel sums.

ghost use Rattle.std.specs.Prelude.{◌≡◌, ◌++◌, ◌≤◌, All, filter, length, OnOk, OnErr};
ghost use Rattle.lensio.specs.Count.{Rose};
ghost use Rattle.lensio.specs.Taken.{Takes, TakesFront};
ghost use Rattle.lensmodel.specs.Call.Seidel.{SumsHold, pairs, seidel_text, sets};
ghost use Rattle.lensmodel.specs.Setup.WellFormed.{IsWellFormed};
ghost use Rattle.lensmodel.specs.Texts.SeidelSums.{seidel_set, surface_sums};
ghost use Rattle.lensrun.specs.Gathered.{Gathers};
ghost use Rattle.lensrun.specs.Paraxial.{is_pair};

use crate::report::{Piece, gather_line};
use lensio::shelf::Failed;
use lensio::sink::Sink;
use lensio::transfer::put;
use lensmodel::job::{Ask, Job};
use lensmodel::paraxial::{Five, SeidelOut};
use lensmodel::setup::Setup;
use lensreport::pieces::Line;
use lensreport::seidel::{print_seidel_head, print_set_head, print_sums, print_whole};
use seidel::sums::sums;

/// Writes the report of Seidel sums: those of each pair of paraxial rays of the job. No memory is
/// taken.
pub(crate) fn write_sums<K: Sink>(s: &Setup, job: &Job, out: &mut K) -> Result<(), Failed>
    requires well { IsWellFormed s.now }
    ensures ok { OnOk result
        (Takes (K.taken out.old) (K.taken out.new) (seidel_text s.now job.now)) }
    ensures front { OnErr result
        (TakesFront (K.taken out.old) (K.taken out.new) (seidel_text s.now job.now)) }
    ensures failed { OnErr result (Rose (K.faults out.old) (K.faults out.new)) }
    ensures taken { OnOk result (K.faults out.new ≡ K.faults out.old) }
    // The sums of every pair of such rays lie in the printed intervals.
    ensures holds { OnOk result (All (SumsHold s.now) (pairs job.now.asks)) }
{
    let asks = job.asks.as_slice();
    let (mut piece, mut line) = (Piece::new(), Line::new());
    print_seidel_head(count(asks), &mut line);
    gather_line(&line, &mut piece, out)?;
    gather_sets(s, asks, &mut piece, out)?;
    put(out, piece.as_str().as_bytes())
}

/// Whether a line of a job asks for Seidel sums.
fn is_seidel(ask: &Ask) -> bool
    ensures { result ≡ is_pair ask.now }
{
    matches!(ask, Ask::Seidel { .. })
}

/// How many lines of a job ask for Seidel sums.
fn count(asks: &[Ask]) -> u64
    ensures { result ≡ length (filter is_pair asks.now) }
{
    asks.iter().filter(|ask| is_seidel(ask)).count() as u64
}

/// Adds the sums of the pairs of paraxial rays of a job to what is gathered, numbered from 1 on.
fn gather_sets<K: Sink>(
    s: &Setup,
    asks: &[Ask],
    piece: &mut Piece,
    out: &mut K,
) -> Result<(), Failed>
    requires well { IsWellFormed s.now }
    ensures ok { OnOk result
        (Gathers (K.taken out.old) (K.taken out.new) piece.new.bytes
        (piece.old.bytes ++ sets s.now 1 (pairs asks.now))) }
    ensures front { OnErr result
        (TakesFront (K.taken out.old) (K.taken out.new)
        (piece.old.bytes ++ sets s.now 1 (pairs asks.now))) }
    ensures failed { OnErr result (Rose (K.faults out.old) (K.faults out.new)) }
    ensures taken { OnOk result (K.faults out.new ≡ K.faults out.old) }
    ensures holds { OnOk result (All (SumsHold s.now) (pairs asks.now)) }
{
    let mut i = 1;
    for ask in asks {
        if let Ask::Seidel { y, u, yb, ub } = ask {
            gather_set(i, &sums(s, y, u, yb, ub), piece, out)?;
            i += 1;
        }
    }
    Ok(())
}

/// Adds the sums of pair `i` to what is gathered: those of each surface, and of the whole lens.
fn gather_set<K: Sink>(
    i: u64,
    sums: &SeidelOut,
    piece: &mut Piece,
    out: &mut K,
) -> Result<(), Failed>
    requires low { 1 ≤ sums.now.scale }
    requires high { sums.now.scale ≤ 15 }
    ensures ok { OnOk result
        (Gathers (K.taken out.old) (K.taken out.new) piece.new.bytes
        (piece.old.bytes ++ seidel_set i sums.now)) }
    ensures front { OnErr result
        (TakesFront (K.taken out.old) (K.taken out.new)
        (piece.old.bytes ++ seidel_set i sums.now)) }
    ensures failed { OnErr result (Rose (K.faults out.old) (K.faults out.new)) }
    ensures taken { OnOk result (K.faults out.new ≡ K.faults out.old) }
{
    let mut line = Line::new();
    print_set_head(i, sums.scale, &mut line);
    gather_line(&line, piece, out)?;
    gather_surfaces(sums.scale, sums.per.as_slice(), piece, out)?;
    line.clear();
    print_whole(sums.scale, &sums.whole, &mut line);
    gather_line(&line, piece, out)
}

/// Adds the lines of the sums of each surface, from surface 1 on, to what is gathered.
fn gather_surfaces<K: Sink>(
    scale: u32,
    per: &[Five],
    piece: &mut Piece,
    out: &mut K,
) -> Result<(), Failed>
    requires low { 1 ≤ scale }
    requires high { scale ≤ 15 }
    requires few { length per.now ≤ 64 }
    ensures ok { OnOk result
        (Gathers (K.taken out.old) (K.taken out.new) piece.new.bytes
        (piece.old.bytes ++ surface_sums scale 1 per.now)) }
    ensures front { OnErr result
        (TakesFront (K.taken out.old) (K.taken out.new)
        (piece.old.bytes ++ surface_sums scale 1 per.now)) }
    ensures failed { OnErr result (Rose (K.faults out.old) (K.faults out.new)) }
    ensures taken { OnOk result (K.faults out.new ≡ K.faults out.old) }
{
    let mut line = Line::new();
    for (j, sums) in per.iter().enumerate() {
        line.clear();
        print_sums(scale, 1 + j as u32, sums, &mut line);
        gather_line(&line, piece, out)?;
    }
    Ok(())
}
