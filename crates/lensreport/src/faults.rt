//! The lines of calls that end without a report.

ghost use Rattle.std.specs.Prelude.{◌≡◌, ◌+◌, ◌≤◌, ◌++◌, [], length};
ghost use Rattle.arrayvec.specs.ArrayString.{array_string_len};
ghost use Rattle.lensmodel.specs.Texts.FaultText as spec;

use crate::pieces::{Line, push_number};
use lensmodel::fault::{AgfFault, CrossFault, JobFault, TextFault, TolFault, ZmxFault};
use lensmodel::status::FileKind;

/// Writes `usage`. The line is empty before, here and below.
pub fn print_usage(out: &mut Line)
    requires { out.old.bytes ≡ [] }
    ensures { out.new.bytes ≡ spec.usage_line }
{
    out.push_str("usage");
    out.push_str("\n");
}

/// The word for a file.
fn file_word(file: FileKind) -> &'static str
    ensures { result.now ≡ spec.file_text file }
{
    match file {
        FileKind::Zmx => "zmx",
        FileKind::Agf => "agf",
        FileKind::Job => "job",
        FileKind::Tol => "tol",
        FileKind::Cert => "cert",
        FileKind::Script => "script",
    }
}

/// Writes `absent FILE`.
pub fn print_absent(file: FileKind, out: &mut Line)
    requires { out.old.bytes ≡ [] }
    ensures { out.new.bytes ≡ spec.absent_line file }
{
    out.push_str("absent ");
    out.push_str(file_word(file));
    out.push_str("\n");
}

/// Writes `read fault FILE`.
pub fn print_read_fault(file: FileKind, out: &mut Line)
    requires { out.old.bytes ≡ [] }
    ensures { out.new.bytes ≡ spec.read_fault_line file }
{
    out.push_str("read fault ");
    out.push_str(file_word(file));
    out.push_str("\n");
}

/// Writes `too long FILE`.
pub fn print_too_long(file: FileKind, out: &mut Line)
    requires { out.old.bytes ≡ [] }
    ensures { out.new.bytes ≡ spec.too_long_line file }
{
    out.push_str("too long ");
    out.push_str(file_word(file));
    out.push_str("\n");
}

/// Appends ` line n`.
fn push_line(line: u32, out: &mut Line)
    requires { array_string_len out.old ≤ 1024 }
    ensures bytes { out.new.bytes ≡ out.old.bytes ++ spec.at_line line }
    ensures len { array_string_len out.new ≤ array_string_len out.old + 70 }
{
    out.push_str(" line ");
    push_number(u64::from(line), out);
}

/// Appends ` word n`.
fn push_word(word: u32, out: &mut Line)
    requires { array_string_len out.old ≤ 1024 }
    ensures bytes { out.new.bytes ≡ out.old.bytes ++ spec.at_word word }
    ensures len { array_string_len out.new ≤ array_string_len out.old + 70 }
{
    out.push_str(" word ");
    push_number(u64::from(word), out);
}

/// Appends ` surface n`.
fn push_surface(surface: u32, out: &mut Line)
    requires { array_string_len out.old ≤ 1024 }
    ensures bytes { out.new.bytes ≡ out.old.bytes ++ spec.at_surface surface }
    ensures len { array_string_len out.new ≤ array_string_len out.old + 73 }
{
    out.push_str(" surface ");
    push_number(u64::from(surface), out);
}

/// Appends a cause of at most 20 bytes, and its line.
fn push_at_line(cause: &str, line: u32, out: &mut Line)
    requires short { length cause.now ≤ 20 }
    requires room { array_string_len out.old ≤ 512 }
    ensures bytes { out.new.bytes ≡ out.old.bytes ++ (cause.now ++ spec.at_line line) }
    ensures len { array_string_len out.new ≤ array_string_len out.old + 90 }
{
    out.push_str(cause);
    push_line(line, out);
}

/// Appends a cause of at most 16 bytes, and its surface.
fn push_at_surface(cause: &str, surface: u32, out: &mut Line)
    requires short { length cause.now ≤ 16 }
    requires room { array_string_len out.old ≤ 512 }
    ensures bytes { out.new.bytes ≡ out.old.bytes ++ (cause.now ++ spec.at_surface surface) }
    ensures len { array_string_len out.new ≤ array_string_len out.old + 90 }
{
    out.push_str(cause);
    push_surface(surface, out);
}

/// Appends what is wrong with a text, with its line; nothing for want of memory, which is no fault of
/// the text.
fn push_text_cause(fault: TextFault, out: &mut Line)
    requires { array_string_len out.old ≤ 512 }
    ensures bytes { out.new.bytes ≡ out.old.bytes ++ spec.text_cause fault }
    ensures len { array_string_len out.new ≤ array_string_len out.old + 90 }
{
    match fault {
        TextFault::OddByte => out.push_str("odd-byte"),
        TextFault::Surrogate { line } => push_at_line("surrogate", line, out),
        TextFault::LongLine { line } => push_at_line("long-line", line, out),
        TextFault::Memory => {}
    }
}

/// Appends the cause of a refused catalogue, with its place; nothing for want of memory.
fn push_agf_cause(fault: AgfFault, out: &mut Line)
    requires { array_string_len out.old ≤ 512 }
    ensures bytes { out.new.bytes ≡ out.old.bytes ++ spec.agf_cause fault }
    ensures len { array_string_len out.new ≤ array_string_len out.old + 170 }
{
    match fault {
        AgfFault::Text(text) => push_text_cause(text, out),
        AgfFault::OrphanRecord { line } => push_at_line("orphan-record", line, out),
        AgfFault::MissingWord { line } => push_at_line("missing-word", line, out),
        AgfFault::BadNumber { line, word } => {
            out.push_str("bad-number");
            push_line(line, out);
            push_word(word, out);
        }
        AgfFault::LongName { line } => push_at_line("long-name", line, out),
        AgfFault::TooManyGlasses { line } => push_at_line("too-many-glasses", line, out),
        AgfFault::Memory => {}
    }
}

/// Appends ` i n`, the number of a coefficient.
fn push_i(i: u32, out: &mut Line)
    requires { array_string_len out.old ≤ 1024 }
    ensures bytes { out.new.bytes ≡ out.old.bytes ++ spec.at_i i }
    ensures len { array_string_len out.new ≤ array_string_len out.old + 67 }
{
    out.push_str(" i ");
    push_number(u64::from(i), out);
}

/// Appends the cause of a refused lens file, with its place; nothing for want of memory.
fn push_zmx_cause(fault: ZmxFault, out: &mut Line)
    requires { array_string_len out.old ≤ 512 }
    ensures bytes { out.new.bytes ≡ out.old.bytes ++ spec.zmx_cause fault }
    ensures len { array_string_len out.new ≤ array_string_len out.old + 170 }
{
    match fault {
        ZmxFault::Text(text) => push_text_cause(text, out),
        ZmxFault::NotSequential { line } => push_at_line("not-sequential", line, out),
        ZmxFault::SurfaceOrder { line } => push_at_line("surface-order", line, out),
        ZmxFault::TooManySurfaces { line } => push_at_line("too-many-surfaces", line, out),
        ZmxFault::SurfaceType { line } => push_at_line("surface-type", line, out),
        ZmxFault::MissingWord { line } => push_at_line("missing-word", line, out),
        ZmxFault::BadNumber { line, word } => {
            push_at_line("bad-number", line, out);
            push_word(word, out);
        }
        ZmxFault::LongName { line } => push_at_line("long-name", line, out),
        ZmxFault::ModelGlass { line } => push_at_line("model-glass", line, out),
        ZmxFault::TooFewSurfaces => out.push_str("too-few-surfaces"),
        ZmxFault::StopCount => out.push_str("stop-count"),
        ZmxFault::MirrorAtObject => out.push_str("mirror-at-object"),
        ZmxFault::InnerInfinity { surface } => push_at_surface("inner-infinity", surface, out),
        ZmxFault::NoZone { surface } => push_at_surface("no-zone", surface, out),
        ZmxFault::Coefficient { surface, i } => {
            push_at_surface("coefficient", surface, out);
            push_i(i, out);
        }
        ZmxFault::Memory => {}
    }
}

/// Appends the cause of a refused job, with its line; nothing for want of memory.
fn push_job_cause(fault: JobFault, out: &mut Line)
    requires { array_string_len out.old ≤ 512 }
    ensures bytes { out.new.bytes ≡ out.old.bytes ++ spec.job_cause fault }
    ensures len { array_string_len out.new ≤ array_string_len out.old + 90 }
{
    match fault {
        JobFault::Text(text) => push_text_cause(text, out),
        JobFault::Word { line } => push_at_line("word", line, out),
        JobFault::BadNumber { line } => push_at_line("bad-number", line, out),
        JobFault::Missing { line } => push_at_line("missing", line, out),
        JobFault::Range { line } => push_at_line("range", line, out),
        JobFault::TooManyRays => out.push_str("too-many-rays"),
        JobFault::Memory => {}
    }
}

/// Appends the cause of a refused tolerance box, with its line; nothing for want of memory.
fn push_tol_cause(fault: TolFault, out: &mut Line)
    requires { array_string_len out.old ≤ 512 }
    ensures bytes { out.new.bytes ≡ out.old.bytes ++ spec.tol_cause fault }
    ensures len { array_string_len out.new ≤ array_string_len out.old + 90 }
{
    match fault {
        TolFault::Text(text) => push_text_cause(text, out),
        TolFault::Word { line } => push_at_line("word", line, out),
        TolFault::BadNumber { line } => push_at_line("bad-number", line, out),
        TolFault::Negative { line } => push_at_line("negative", line, out),
        TolFault::NoSurface { line } => push_at_line("no-surface", line, out),
        TolFault::Twice { line } => push_at_line("twice", line, out),
        TolFault::TooMany { line } => push_at_line("too-many", line, out),
        TolFault::Memory => {}
    }
}

/// Appends the cause of files that don't fit together, with its place.
fn push_cross_cause(fault: CrossFault, out: &mut Line)
    requires { array_string_len out.old ≤ 512 }
    ensures bytes { out.new.bytes ≡ out.old.bytes ++ spec.cross_cause fault }
    ensures len { array_string_len out.new ≤ array_string_len out.old + 90 }
{
    match fault {
        CrossFault::NoGlass { surface } => push_at_surface("no-glass", surface, out),
        CrossFault::Formula { surface } => push_at_surface("formula", surface, out),
        CrossFault::NoWave => out.push_str("no-wave"),
        CrossFault::WaveRange { surface } => push_at_surface("wave-range", surface, out),
        CrossFault::BadIndex { surface } => push_at_surface("bad-index", surface, out),
        CrossFault::MirrorIndex { surface } => push_at_surface("mirror-index", surface, out),
    }
}

/// Writes `refused agf CAUSE`, with the cause's place.
pub fn print_agf_fault(fault: AgfFault, out: &mut Line)
    requires { out.old.bytes ≡ [] }
    ensures { out.new.bytes ≡ spec.refused_line FileKind.Agf (spec.agf_cause fault) }
{
    out.push_str("refused ");
    out.push_str(file_word(FileKind::Agf));
    out.push_str(" ");
    push_agf_cause(fault, out);
    out.push_str("\n");
}

/// Writes `refused zmx CAUSE`, with the cause's place.
pub fn print_zmx_fault(fault: ZmxFault, out: &mut Line)
    requires { out.old.bytes ≡ [] }
    ensures { out.new.bytes ≡ spec.refused_line FileKind.Zmx (spec.zmx_cause fault) }
{
    out.push_str("refused ");
    out.push_str(file_word(FileKind::Zmx));
    out.push_str(" ");
    push_zmx_cause(fault, out);
    out.push_str("\n");
}

/// Writes `refused job CAUSE`, with the cause's line.
pub fn print_job_fault(fault: JobFault, out: &mut Line)
    requires { out.old.bytes ≡ [] }
    ensures { out.new.bytes ≡ spec.refused_line FileKind.Job (spec.job_cause fault) }
{
    out.push_str("refused ");
    out.push_str(file_word(FileKind::Job));
    out.push_str(" ");
    push_job_cause(fault, out);
    out.push_str("\n");
}

/// Writes `refused tol CAUSE`, with the cause's line.
pub fn print_tol_fault(fault: TolFault, out: &mut Line)
    requires { out.old.bytes ≡ [] }
    ensures { out.new.bytes ≡ spec.refused_line FileKind.Tol (spec.tol_cause fault) }
{
    out.push_str("refused ");
    out.push_str(file_word(FileKind::Tol));
    out.push_str(" ");
    push_tol_cause(fault, out);
    out.push_str("\n");
}

/// Writes `refused cross CAUSE`, with the cause's place.
pub fn print_cross_fault(fault: CrossFault, out: &mut Line)
    requires { out.old.bytes ≡ [] }
    ensures { out.new.bytes ≡ spec.crossed_line fault }
{
    out.push_str("refused cross ");
    push_cross_cause(fault, out);
    out.push_str("\n");
}
