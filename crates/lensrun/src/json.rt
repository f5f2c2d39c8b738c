//! The writing of rows as JSON.

ghost use Rattle.std.specs.Prelude.{◌≡◌, ◌+◌, ◌*◌, ◌≤◌, [], IsErrOf, IsTrue, OnOk, OnErr};
ghost use Rattle.std.specs.List.{All};
ghost use Rattle.lensio.specs.Count.{Rose};
ghost use Rattle.lensio.specs.Taken.{Takes, TakesFront};
ghost use Rattle.lensmodel.specs.Call.Trace.{RowsHold, rows_of};
ghost use Rattle.lensmodel.specs.Call.TraceJson.{json_lines, json_text};
ghost use Rattle.lensmodel.specs.Rows.Ray as rays;
ghost use Rattle.lensmodel.specs.Setup.Launches as launches;
ghost use Rattle.lensmodel.specs.Setup.Ranges.{is_ask};
ghost use Rattle.lensmodel.specs.Setup.Values.{image};
ghost use Rattle.lensmodel.specs.Setup.WellFormed.{IsInRange, IsWellFormed};
ghost use Rattle.lensrun.specs.Gathered.{Gathers};
ghost use Rattle.lensrun.specs.Traces.{AllHold, IsPreparedFor};
ghost use Rattle.lensrun.specs.declared.json.Unwritten.TheVariants as unwritten;
ghost use Rattle.std.specs.Prelude.{map};

use crate::trace::Filled;
use ladder::bench::Bench;
use lensio::shelf::Failed;
use lensio::sink::Sink;
use lensio::transfer::put;
use lensmodel::job::{Ask, Job};
use lensmodel::setup::Setup;
use lensreport::json::{ReportFull, json_row};
use sagform::steps::Steps;
use skewtrace::trace::blank;
use spotfan::launch::{count, launch};
use std::alloc::Global;
use std::sync::ledger::Ledger;

/// Why rows in JSON weren't written.
#[derive(Clone, Copy, Debug, PartialEq, Eq, Drop)]
pub enum Unwritten {
    /// The sink failed.
    Failed,
    /// Memory was wanting for a line. No clause says when it comes.
    Memory,
}

impl From<Failed> for Unwritten {
    ghost from_gives = { λ _ why. why ≡ unwritten.Failed };

    fn from(_: Failed) -> Self {
        Unwritten::Failed
    }
}

impl From<ReportFull> for Unwritten {
    ghost from_gives = { λ _ why. why ≡ unwritten.Memory };

    fn from(_: ReportFull) -> Self {
        Unwritten::Memory
    }
}

/// Writes the rows of all rays of a job, a line each, as soon as each is made. The surfaces are prepared
/// once.
pub(crate) fn write_json<K: Sink, L: Ledger>(
    alloc: Global,
    s: &Setup,
    job: &Job,
    bench: &mut Bench,
    out: &mut K,
    steps: &mut Steps<L>,
) -> Result<(), Unwritten>
    requires well { IsWellFormed s.now }
    requires range { IsInRange job.now }
    ensures ok { OnOk result (Takes (K.taken out.old) (K.taken out.new) (json_text s.now job.now)) }
    ensures front { OnErr result
        (TakesFront (K.taken out.old) (K.taken out.new) (json_text s.now job.now)) }
    ensures failed { IsErrOf result Unwritten.Failed → Rose (K.faults out.old) (K.faults out.new) }
    ensures taken { ¬ IsErrOf result Unwritten.Failed → K.faults out.new ≡ K.faults out.old }
    // Every chain lies in the printed intervals, and every word holds.
    ensures rows { OnOk result (RowsHold s.now job.now) }
    ensures steps { steps.new ≡ steps.old + 4 * image s.now }
{
    bench.fill(s, steps);
    let lens = Filled { setup: s, bench };
    write_asks(alloc, &lens, job.asks.as_slice(), out)
}

/// Writes the rows of all rays of a job, numbered from 1 on.
fn write_asks<K: Sink>(
    alloc: Global,
    lens: &Filled,
    asks: &[Ask],
    out: &mut K,
) -> Result<(), Unwritten>
    requires ready { IsPreparedFor lens.now.setup.now lens.now.bench.now }
    requires asks { All (λ a. IsTrue (is_ask a)) asks.now }
    requires rays { launches.job_count asks.now ≤ 10_000 }
    ensures ok { OnOk result
        (Gathers (K.taken out.old) (K.taken out.new) []
        (json_lines 1 (map (rays.row lens.now.setup.now) (launches.job_launches asks.now)))) }
    ensures front { OnErr result
        (TakesFront (K.taken out.old) (K.taken out.new)
        (json_lines 1 (map (rays.row lens.now.setup.now) (launches.job_launches asks.now)))) }
    ensures failed { IsErrOf result Unwritten.Failed → Rose (K.faults out.old) (K.faults out.new) }
    ensures taken { ¬ IsErrOf result Unwritten.Failed → K.faults out.new ≡ K.faults out.old }
    ensures holds { OnOk result (AllHold lens.now.setup.now (launches.job_launches asks.now)) }
{
    let mut first = 1;
    for ask in asks {
        write_rows(alloc, lens, ask, first, out)?;
        first += count(ask);
    }
    Ok(())
}

/// Writes the rows of the rays of a line of a job, numbered from `first` on.
fn write_rows<K: Sink>(
    alloc: Global,
    lens: &Filled,
    ask: &Ask,
    first: u32,
    out: &mut K,
) -> Result<(), Unwritten>
    requires ready { IsPreparedFor lens.now.setup.now lens.now.bench.now }
    requires ask { IsTrue (is_ask ask.now) }
    requires few { first + launches.count ask.now ≤ 10_001 }
    ensures ok { OnOk result
        (Gathers (K.taken out.old) (K.taken out.new) []
        (json_lines first (rows_of lens.now.setup.now ask.now))) }
    ensures front { OnErr result
        (TakesFront (K.taken out.old) (K.taken out.new)
        (json_lines first (rows_of lens.now.setup.now ask.now))) }
    ensures failed { IsErrOf result Unwritten.Failed → Rose (K.faults out.old) (K.faults out.new) }
    ensures taken { ¬ IsErrOf result Unwritten.Failed → K.faults out.new ≡ K.faults out.old }
    ensures holds { OnOk result (AllHold lens.now.setup.now (launches.launches ask.now)) }
{
    let mut row = blank();
    for k in 0..count(ask) {
        lens.bench.row_into(lens.setup, &launch(ask, k), &mut row);
        let line = json_row(alloc, first + k, &row)?;
        put(out, line.as_slice())?;
    }
    Ok(())
}
