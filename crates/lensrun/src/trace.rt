//! The writing of the report of a trace.

ghost use Rattle.std.specs.Prelude.{◌≡◌, ◌++◌, ◌+◌, ◌*◌, ◌<◌, ◌≤◌, [], List, map, length, IsTrue, if◌then◌else◌, OnOk, OnErr};
ghost use Rattle.std.specs.List.{All};
ghost use Rattle.lensio.specs.Count.{Rose};
ghost use Rattle.lensio.specs.Taken.{Takes, TakesFront};
ghost use Rattle.lensmodel.specs.Call.Trace as report;
ghost use Rattle.lensmodel.specs.Call.Trace.{RowsHold, SpotsHold, ask_lines, asks_lines, rows_of, trace_text};
ghost use Rattle.lensmodel.specs.Claims.RowClaims.{RowHolds};
ghost use Rattle.lensmodel.specs.Rows.Ray as rays;
ghost use Rattle.lensmodel.specs.Setup.Launches as launches;
ghost use Rattle.lensmodel.specs.Setup.Ranges.{is_ask};
ghost use Rattle.lensmodel.specs.Setup.Values.{image};
ghost use Rattle.lensmodel.specs.Setup.WellFormed.{IsInRange, IsWellFormed};
ghost use Rattle.lensmodel.specs.Texts.Rows.{rays_lines};
ghost use Rattle.lensmodel.specs.declared.row.Row.{Row as RowValue};
ghost use Rattle.lensreport.specs.Spots as spots;
ghost use Rattle.lensreport.specs.Totals.{counts_of};
ghost use Rattle.lensrun.specs.Gathered.{Gathers};
ghost use Rattle.lensrun.specs.Traces.{AllHold, CountsMore, IsPreparedFor};
ghost use Rattle.spotfan.specs.Sums.{sums_of};

use crate::rays::gather_ray;
use crate::report::{Piece, gather_line};
use ladder::bench::Bench;
use lensio::shelf::Failed;
use lensio::sink::Sink;
use lensio::transfer::put;
use lensmodel::job::{Ask, Job};
use lensmodel::setup::Setup;
use lensreport::pieces::Line;
use lensreport::rows::print_trace_head;
use lensreport::spot::{Spot, Statistics, print_spot};
use lensreport::total::{Totals, print_total};
use sagform::steps::Steps;
use skewtrace::trace::blank;
use spotfan::launch::{count, launch};
use spotfan::tally::Tally;
use std::sync::ledger::Ledger;

/// A lens, and its surfaces as they were prepared for it.
#[derive(Drop)]
pub(crate) struct Filled<'a> {
    pub(crate) setup: &'a Setup,
    pub(crate) bench: &'a Bench,
}

/// Writes the report of a trace: its head, the lines of each ray and of each grid, and the totals. The
/// surfaces are prepared once, and no memory is taken.
pub(crate) fn write_trace<K: Sink, L: Ledger>(
    s: &Setup,
    job: &Job,
    bench: &mut Bench,
    out: &mut K,
    steps: &mut Steps<L>,
) -> Result<(), Failed>
    requires well { IsWellFormed s.now }
    requires range { IsInRange job.now }
    ensures ok { OnOk result
        (Takes (K.taken out.old) (K.taken out.new) (trace_text s.now job.now)) }
    ensures front { OnErr result
        (TakesFront (K.taken out.old) (K.taken out.new) (trace_text s.now job.now)) }
    ensures failed { OnErr result (Rose (K.faults out.old) (K.faults out.new)) }
    ensures taken { OnOk result (K.faults out.new ≡ K.faults out.old) }
    // Every chain lies in the printed intervals, and every word holds.
    ensures rows { OnOk result (RowsHold s.now job.now) }
    ensures spots { OnOk result (SpotsHold s.now job.now) }
    ensures steps { steps.new ≡ steps.old + 4 * image s.now }
{
    bench.fill(s, steps);
    let (mut piece, mut line, mut totals) = (Piece::new(), Line::new(), Totals::new());
    print_trace_head(s, &mut line);
    gather_line(&line, &mut piece, out)?;
    let lens = Filled { setup: s, bench };
    gather_asks(&lens, job.asks.as_slice(), &mut totals, &mut piece, out)?;
    line.clear();
    print_total(&totals, &mut line);
    gather_line(&line, &mut piece, out)?;
    put(out, piece.as_str().as_bytes())
}

/// Adds the lines of all rays of a job to what is gathered, numbered from 1 on, and counts them.
fn gather_asks<K: Sink>(
    lens: &Filled,
    asks: &[Ask],
    totals: &mut Totals,
    piece: &mut Piece,
    out: &mut K,
) -> Result<(), Failed>
    requires ready { IsPreparedFor lens.now.setup.now lens.now.bench.now }
    requires asks { All (λ a. IsTrue (is_ask a)) asks.now }
    requires rays { launches.job_count asks.now ≤ 10_000 }
    requires none { totals.old ≡ counts_of [] }
    ensures ok { OnOk result
        (Gathers (K.taken out.old) (K.taken out.new) piece.new.bytes
        (piece.old.bytes ++ asks_lines lens.now.setup.now 1 asks.now)) }
    ensures front { OnErr result
        (TakesFront (K.taken out.old) (K.taken out.new)
        (piece.old.bytes ++ asks_lines lens.now.setup.now 1 asks.now)) }
    ensures failed { OnErr result (Rose (K.faults out.old) (K.faults out.new)) }
    ensures taken { OnOk result (K.faults out.new ≡ K.faults out.old) }
    ensures totals { OnOk result
        (totals.new ≡ counts_of
        (map (rays.row lens.now.setup.now) (launches.job_launches asks.now))) }
    ensures holds { OnOk result (AllHold lens.now.setup.now (launches.job_launches asks.now)) }
{
    let mut first = 1;
    for ask in asks {
        gather_ask(lens, ask, first, totals, piece, out)?;
        first += count(ask);
    }
    Ok(())
}

/// Adds the lines of the rays of a line of a job to what is gathered, numbered from `first` on, and
/// counts them. What is said of a grid follows them.
fn gather_ask<K: Sink>(
    lens: &Filled,
    ask: &Ask,
    first: u32,
    totals: &mut Totals,
    piece: &mut Piece,
    out: &mut K,
) -> Result<(), Failed>
    requires ready { IsPreparedFor lens.now.setup.now lens.now.bench.now }
    requires ask { IsTrue (is_ask ask.now) }
    requires few { first + launches.count ask.now ≤ 10_001 }
    requires next { totals.old.rays + 1 ≡ first }
    ensures ok { OnOk result
        (Gathers (K.taken out.old) (K.taken out.new) piece.new.bytes
        (piece.old.bytes ++ ask_lines lens.now.setup.now first ask.now)) }
    ensures front { OnErr result
        (TakesFront (K.taken out.old) (K.taken out.new)
        (piece.old.bytes ++ ask_lines lens.now.setup.now first ask.now)) }
    ensures failed { OnErr result (Rose (K.faults out.old) (K.faults out.new)) }
    ensures taken { OnOk result (K.faults out.new ≡ K.faults out.old) }
    ensures totals { OnOk result
        (CountsMore totals.old totals.new (rows_of lens.now.setup.now ask.now)) }
    ensures rays { OnOk result (totals.new.rays ≡ totals.old.rays + launches.count ask.now) }
    ensures holds { OnOk result (AllHold lens.now.setup.now (launches.launches ask.now)) }
{
    let (mut tally, mut line) = (Tally::new(), Line::new());
    gather_rays(lens, ask, first, totals, &mut tally, piece, out)?;
    print_end(ask, &tally, &mut line);
    gather_line(&line, piece, out)
}

/// Adds the lines of the rays of a line of a job to what is gathered, and to the totals and to the tally,
/// which is empty before.
fn gather_rays<K: Sink>(
    lens: &Filled,
    ask: &Ask,
    first: u32,
    totals: &mut Totals,
    tally: &mut Tally,
    piece: &mut Piece,
    out: &mut K,
) -> Result<(), Failed>
    requires ready { IsPreparedFor lens.now.setup.now lens.now.bench.now }
    requires ask { IsTrue (is_ask ask.now) }
    requires few { first + launches.count ask.now ≤ 10_001 }
    requires next { totals.old.rays + 1 ≡ first }
    requires none { tally.old ≡ sums_of [] }
    ensures ok { OnOk result (Gathers (K.taken out.old) (K.taken out.new) piece.new.bytes
        (piece.old.bytes ++ rays_lines (report.is_single ask.now) first
        (rows_of lens.now.setup.now ask.now))) }
    ensures front { OnErr result (TakesFront (K.taken out.old) (K.taken out.new)
        (piece.old.bytes ++ rays_lines (report.is_single ask.now) first
        (rows_of lens.now.setup.now ask.now))) }
    ensures failed { OnErr result (Rose (K.faults out.old) (K.faults out.new)) }
    ensures taken { OnOk result (K.faults out.new ≡ K.faults out.old) }
    ensures totals { OnOk result
        (CountsMore totals.old totals.new (rows_of lens.now.setup.now ask.now)) }
    ensures rays { OnOk result (totals.new.rays ≡ totals.old.rays + launches.count ask.now) }
    ensures tally { OnOk result (tally.new ≡ sums_of (rows_of lens.now.setup.now ask.now)) }
    ensures holds { OnOk result (AllHold lens.now.setup.now (launches.launches ask.now)) }
{
    let single = is_single(ask);
    let mut row = blank();
    for k in 0..count(ask) {
        lens.bench.row_into(lens.setup, &launch(ask, k), &mut row);
        totals.add(&row);
        tally.add(&row);
        gather_ray(single, first + k, &row, piece, out)?;
    }
    Ok(())
}

/// Whether a line of a job asks for one ray by itself.
fn is_single(ask: &Ask) -> bool
    ensures { result ≡ report.is_single ask.now }
{
    matches!(ask, Ask::Ray { .. } | Ask::Aim { .. })
}

/// Writes what follows the last ray of a line of a job into an empty line: of a grid its spot.
fn print_end(ask: &Ask, tally: &Tally, out: &mut Line)
    requires empty { out.old.bytes ≡ [] }
    requires ask { IsTrue (is_ask ask.now) }
    requires all { tally.now.rows ≡ launches.count ask.now }
    ensures { (rows : List RowValue) → tally.now ≡ sums_of rows
        → out.new.bytes ≡ report.spot_end ask.now rows }
{
    if let Ask::Spot { .. } = ask {
        print_spot(&spot(tally, count(ask)), out);
    }
}

/// What is said of the rays of a grid, of which there are so many.
fn spot(tally: &Tally, rays: u32) -> Spot
    requires { tally.now.rows ≡ rays }
    ensures { (rows : List RowValue) → tally.now ≡ sums_of rows → result ≡ spots.spot_of rows }
{
    Spot {
        rays,
        passes: tally.passes(),
        statistics: statistics(tally),
    }
}

/// The statistics of the rays of a grid that pass, if any does.
fn statistics(tally: &Tally) -> Option<Statistics>
    ensures { (rows : List RowValue) → tally.now ≡ sums_of rows
        → result ≡ spots.statistics_if tally.now.passes rows }
{
    if tally.passes() == 0 {
        return None;
    }
    Some(Statistics {
        centroid: tally.centre(),
        mean_square: tally.spread(),
    })
}
