//! The lines of first-order values.

ghost use Rattle.std.specs.Prelude.{◌≡◌, ◌+◌, ◌≤◌, ◌++◌, [], length};
ghost use Rattle.arrayvec.specs.ArrayString.{array_string_len};
ghost use Rattle.lensmodel.specs.Texts.FirstOrder as texts;
ghost use Rattle.lensreport.specs.Paraxial.{trail_head};

use crate::pieces::{Line, push_number, push_value};
use fixdec::span::Span;
use fixdec::step::Step;
use lensmodel::paraxial::FirstOut;

/// Appends `NAME [a,b]`, the line of a value after its name, which has at most 8 bytes.
fn push_first_value(name: &str, value: &Step<Span>, scale: u32, out: &mut Line)
    requires short { length name.now ≤ 8 }
    requires room { array_string_len out.old + 141 ≤ 2048 }
    requires low { 1 ≤ scale }
    requires high { scale ≤ 15 }
    ensures bytes { out.new.bytes ≡ out.old.bytes ++ texts.first_value name.now scale value.now }
    ensures len { array_string_len out.new ≤ array_string_len out.old + 141 }
{
    out.push_str(name);
    out.push_str(" ");
    push_value(value, scale, out);
    out.push_str("\n");
}

/// Writes `first scale S`, and `NAME [a,b]` of each of the six values. The line is empty before, and
/// the scale is from 1 to 15, here and below.
pub fn print_first_head(values: &FirstOut, out: &mut Line)
    requires empty { out.old.bytes ≡ [] }
    requires low { 1 ≤ values.now.scale }
    requires high { values.now.scale ≤ 15 }
    ensures { out.new.bytes ≡ texts.first_head values.now }
{
    out.push_str("first scale ");
    push_number(u64::from(values.scale), out);
    out.push_str("\n");
    push_first_value("efl", &values.efl, values.scale, out);
    push_first_value("bfl", &values.bfl, values.scale, out);
    push_first_value("ffl", &values.ffl, values.scale, out);
    push_first_value("front", &values.front, values.scale, out);
    push_first_value("back", &values.back, values.scale, out);
    push_first_value("enp", &values.enp, values.scale, out);
}

/// Writes `ray i scale S`, the line before the trail of a paraxial ray.
pub fn print_trail_head(i: u64, scale: u32, out: &mut Line)
    requires { out.old.bytes ≡ [] }
    ensures { out.new.bytes ≡ trail_head i scale }
{
    out.push_str("ray ");
    push_number(i, out);
    out.push_str(" scale ");
    push_number(u64::from(scale), out);
    out.push_str("\n");
}

/// Writes `at j y [a,b] u [a,b]`, the height and the slope of a paraxial ray at surface `j`.
pub fn print_trail_line(scale: u32, j: u32, at: &(Step<Span>, Step<Span>), out: &mut Line)
    requires empty { out.old.bytes ≡ [] }
    requires low { 1 ≤ scale }
    requires high { scale ≤ 15 }
    ensures { out.new.bytes ≡ texts.trail_line scale j at.now }
{
    out.push_str("at ");
    push_number(u64::from(j), out);
    out.push_str(" y ");
    push_value(&at.0, scale, out);
    out.push_str(" u ");
    push_value(&at.1, scale, out);
    out.push_str("\n");
}
