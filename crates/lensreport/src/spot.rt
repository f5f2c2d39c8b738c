//! The line of a spot.

ghost use Rattle.std.specs.Prelude.{◌≡◌, ◌+◌, ◌≤◌, ◌++◌, [], List};
ghost use Rattle.arrayvec.specs.ArrayString.{array_string_len};
ghost use Rattle.lensmodel.specs.Texts.Rows as texts;
ghost use Rattle.lensmodel.specs.declared.row.Row.{Row as RowValue};
ghost use Rattle.lensreport.specs.Spots.{centroid_text, spot_of, spot_text, statistics_text};

use crate::pieces::{Line, push_named_span, push_number};
use fixdec::span::Span;
use fixdec::step::Step;

/// The statistics of the rays that pass, at scale 12.
#[derive(Clone, Copy, Debug, PartialEq, Eq)]
pub struct Statistics {
    /// The centroid: the mean of x and the mean of y.
    pub centroid: Step<(Span, Span)>,
    /// The mean square distance from the centroid.
    pub mean_square: Step<Span>,
}

/// What is said of the rays of a grid.
#[derive(Clone, Copy, Debug, PartialEq, Eq)]
pub struct Spot {
    /// How many rays there are.
    pub rays: u32,
    /// How many of them pass.
    pub passes: u32,
    /// The statistics, where any ray passes.
    pub statistics: Option<Statistics>,
}

/// Appends ` msr [..]`, or that the mean square distance is lost.
fn push_mean_square(mean_square: &Step<Span>, out: &mut Line)
    requires { array_string_len out.old ≤ 1024 }
    ensures bytes { out.new.bytes ≡ out.old.bytes ++ texts.spread_text mean_square.now }
    ensures len { array_string_len out.new ≤ array_string_len out.old + 141 }
{
    match mean_square {
        Step::Val(span) => push_named_span("msr", *span, 12, out),
        Step::Empty | Step::Lost(_) => out.push_str(" msr lost"),
    }
}

/// Appends ` centroid x [..] y [..]`.
fn push_centroid(x: Span, y: Span, out: &mut Line)
    requires { array_string_len out.old ≤ 512 }
    ensures bytes { out.new.bytes ≡ out.old.bytes ++ centroid_text x y }
    ensures len { array_string_len out.new ≤ array_string_len out.old + 300 }
{
    out.push_str(" centroid");
    push_named_span("x", x, 12, out);
    push_named_span("y", y, 12, out);
}

/// Appends ` centroid x [..] y [..] msr [..]`, or what is lost of it.
fn push_statistics(centroid: &Step<(Span, Span)>, mean_square: &Step<Span>, out: &mut Line)
    requires { array_string_len out.old ≤ 512 }
    ensures bytes { out.new.bytes ≡ out.old.bytes
        ++ texts.statistics_text centroid.now mean_square.now }
    ensures len { array_string_len out.new ≤ array_string_len out.old + 450 }
{
    match centroid {
        Step::Val((x, y)) => {
            push_centroid(*x, *y, out);
            push_mean_square(mean_square, out);
        }
        Step::Empty | Step::Lost(_) => out.push_str(" centroid lost"),
    }
}

/// Appends the statistics, where there are any.
fn push_statistics_if(statistics: &Option<Statistics>, out: &mut Line)
    requires { array_string_len out.old ≤ 512 }
    ensures bytes { out.new.bytes ≡ out.old.bytes ++ statistics_text statistics.now }
    ensures len { array_string_len out.new ≤ array_string_len out.old + 450 }
{
    if let Some(statistics) = statistics {
        push_statistics(&statistics.centroid, &statistics.mean_square, out);
    }
}

fn print_exactly(spot: &Spot, out: &mut Line)
    requires { out.old.bytes ≡ [] }
    ensures { out.new.bytes ≡ spot_text spot.now }
{
    out.push_str("spot rays ");
    push_number(u64::from(spot.rays), out);
    out.push_str(" passes ");
    push_number(u64::from(spot.passes), out);
    push_statistics_if(&spot.statistics, out);
    out.push_str("\n");
}

/// Writes `spot rays m passes k`, and where any ray passes ` centroid x [..] y [..] msr [..]`, or what
/// is lost of it. The line is empty before.
pub fn print_spot(spot: &Spot, out: &mut Line)
    requires { out.old.bytes ≡ [] }
    ensures { (rows : List RowValue) → spot.now ≡ spot_of rows
        → out.new.bytes ≡ texts.spot_line rows }
{
    print_exactly(spot, out);
}
