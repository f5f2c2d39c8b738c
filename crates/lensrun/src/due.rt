//! What a call is due to write.

ghost use Rattle.std.specs.Prelude.{◌≡◌, ◌≢◌};
ghost use Rattle.lensmodel.specs.Texts.FaultText.{usage_line, refused_line, crossed_line, agf_cause, job_cause, tol_cause, zmx_cause};
ghost use Rattle.lensmodel.specs.Call.Answer.{answer};
ghost use Rattle.lensrun.specs.Due.{due_answer, unread_answer, IsNoTrace, IsReady};

use glassbook::book::GlassBook;
use ladder::bench::Bench;
use lensio::transfer::SlurpFault;
use lensmodel::fault::{AgfFault, CrossFault, JobFault, TolFault, ZmxFault};
use lensmodel::job::Job;
use lensmodel::setup::Setup;
use lensmodel::status::{FileKind, Status};
use lensreport::faults::{
    print_absent, print_agf_fault, print_cross_fault, print_job_fault, print_read_fault,
    print_tol_fault, print_too_long, print_usage, print_zmx_fault,
};
use lensreport::pieces::Line;
use zmxread::file::ZmxFile;

/// What a call is due to write, and with it how the call ends where that is written.
#[derive(Drop)]
pub enum Due {
    /// One line.
    Line {
        /// How the call ends.
        status: Status,
        /// The line.
        text: Line,
    },
    /// The glasses of a book, with which the call is done.
    Glasses(GlassBook),
    /// The prescription of a lens, with which the call is done.
    Lens(ZmxFile),
    /// The rows of the rays of a job, with which the call is done.
    Trace(Tracing),
    /// The same rows as JSON.
    TraceJson(Tracing),
    /// The first-order values of a lens and the trails of a job, with which the call is done.
    First(Paraxial),
    /// The Seidel sums of a job, with which the call is done.
    Seidel(Paraxial),
    /// Nothing, for want of memory.
    Nothing,
}

/// A lens whose rays are to be traced.
#[derive(Drop)]
pub struct Tracing {
    /// The lens with its media and its job's settings.
    pub setup: Setup,
    /// The job.
    pub job: Job,
    /// Room for the prepared surfaces.
    pub bench: Bench,
}

/// A lens whose paraxial rays are worked out.
#[derive(Drop)]
pub struct Paraxial {
    /// The lens with its media and its job's settings.
    pub setup: Setup,
    /// The job.
    pub job: Job,
}

/// Words that fit no command.
pub fn usage() -> Due
    ensures { due_answer result ≡ answer Status.Usage usage_line }
{
    let mut text = Line::new();
    print_usage(&mut text);
    Due::Line {
        status: Status::Usage,
        text,
    }
}

/// A file that isn't read.
pub fn unread(file: FileKind, fault: SlurpFault) -> Due
    ensures answer { due_answer result ≡ unread_answer file fault }
    ensures nothing { fault ≡ SlurpFault.Memory → result ≡ Due.Nothing }
{
    let mut text = Line::new();
    let status = match fault {
        SlurpFault::Absent => {
            print_absent(file, &mut text);
            Status::Absent
        }
        SlurpFault::Fault => {
            print_read_fault(file, &mut text);
            Status::ReadFault
        }
        SlurpFault::TooLong => {
            print_too_long(file, &mut text);
            Status::TooLong
        }
        SlurpFault::Memory => return Due::Nothing,
    };
    Due::Line { status, text }
}

/// A catalogue that is refused; nothing where memory was wanting.
pub fn refused_catalogue(fault: AgfFault) -> Due
    ensures answer { fault ≢ AgfFault.Memory
        → due_answer result ≡ answer Status.Refused (refused_line FileKind.Agf (agf_cause fault)) }
    ensures nothing { fault ≡ AgfFault.Memory → result ≡ Due.Nothing }
{
    if fault == AgfFault::Memory {
        return Due::Nothing;
    }
    let mut text = Line::new();
    print_agf_fault(fault, &mut text);
    Due::Line {
        status: Status::Refused,
        text,
    }
}

/// A lens that is refused; nothing where memory was wanting.
pub fn refused_lens(fault: ZmxFault) -> Due
    ensures answer { fault ≢ ZmxFault.Memory
        → due_answer result ≡ answer Status.Refused (refused_line FileKind.Zmx (zmx_cause fault)) }
    ensures nothing { fault ≡ ZmxFault.Memory → result ≡ Due.Nothing }
{
    if fault == ZmxFault::Memory {
        return Due::Nothing;
    }
    let mut text = Line::new();
    print_zmx_fault(fault, &mut text);
    Due::Line {
        status: Status::Refused,
        text,
    }
}

/// A job that is refused; nothing where memory was wanting.
pub fn refused_job(fault: JobFault) -> Due
    ensures answer { fault ≢ JobFault.Memory
        → due_answer result ≡ answer Status.Refused (refused_line FileKind.Job (job_cause fault)) }
    ensures nothing { fault ≡ JobFault.Memory → result ≡ Due.Nothing }
{
    if fault == JobFault::Memory {
        return Due::Nothing;
    }
    let mut text = Line::new();
    print_job_fault(fault, &mut text);
    Due::Line {
        status: Status::Refused,
        text,
    }
}

/// A box that is refused; nothing where memory was wanting.
pub fn refused_box(fault: TolFault) -> Due
    ensures answer { fault ≢ TolFault.Memory
        → due_answer result ≡ answer Status.Refused (refused_line FileKind.Tol (tol_cause fault)) }
    ensures nothing { fault ≡ TolFault.Memory → result ≡ Due.Nothing }
{
    if fault == TolFault::Memory {
        return Due::Nothing;
    }
    let mut text = Line::new();
    print_tol_fault(fault, &mut text);
    Due::Line {
        status: Status::Refused,
        text,
    }
}

/// Files that don't fit together.
pub fn crossed(fault: CrossFault) -> Due
    ensures answer { due_answer result ≡ answer Status.Refused (crossed_line fault) }
    ensures no_trace { IsNoTrace result }
    ensures ready { IsReady result }
{
    let mut text = Line::new();
    print_cross_fault(fault, &mut text);
    Due::Line {
        status: Status::Refused,
        text,
    }
}
