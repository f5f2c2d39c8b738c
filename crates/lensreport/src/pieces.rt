//! The pieces that lines are made of.

ghost use Rattle.std.specs.Prelude.{◌≡◌, ℕ, pos, ◌+◌, ◌≤◌, ◌<◌, ◌++◌, [], ◌∷◌, length, codes};
ghost use Rattle.std.specs.Fmt.{decimal};
ghost use Rattle.arrayvec.specs.ArrayString.{array_string_len};
ghost use Rattle.fixdec.specs.DecimalText.{dec_text, fix_text};
ghost use Rattle.lensmodel.specs.Texts.Pieces.{name_text, named_span, span_text, unit_byte, value_text, why_text};

use arrayvec::ArrayString;
use exactdec::print::{print_dec, print_fix};
use fixdec::dec::Dec;
use fixdec::span::Span;
use fixdec::step::{Step, Why};
use lensmodel::name::Name;

/// A line of a printed text.
pub type Line = ArrayString<2048>;

/// Appends a decimal, of at most 64 bytes.
pub fn push_decimal(v: &Dec, out: &mut Line)
    requires { array_string_len out.old + 64 ≤ 2048 }
    ensures bytes { out.new.bytes ≡ out.old.bytes ++ dec_text v.now }
    ensures len { array_string_len out.new ≤ array_string_len out.old + 64 }
{
    let mut text = ArrayString::<64>::new();
    print_dec(v, &mut text);
    let _fits = text.len();
    out.push_str(text.as_str());
}

/// Appends a number, of at most 64 bytes.
pub fn push_number(n: u64, out: &mut Line)
    requires { array_string_len out.old + 64 ≤ 2048 }
    ensures bytes { out.new.bytes ≡ out.old.bytes ++ decimal n }
    ensures len { array_string_len out.new ≤ array_string_len out.old + 64 }
{
    push_decimal(
        &Dec {
            mant: i128::from(n),
            exp: 0,
        },
        out,
    );
}

/// Appends a raw number at a scale from 1 to 15, of at most 64 bytes.
fn push_fix(raw: i128, scale: u32, out: &mut Line)
    requires room { array_string_len out.old + 64 ≤ 2048 }
    requires low { 1 ≤ scale }
    requires high { scale ≤ 15 }
    ensures bytes { out.new.bytes ≡ out.old.bytes ++ fix_text scale raw }
    ensures len { array_string_len out.new ≤ array_string_len out.old + 64 }
{
    let mut text = ArrayString::<64>::new();
    print_fix(raw, scale, &mut text);
    let _fits = text.len();
    out.push_str(text.as_str());
}

/// Appends `[a,b]`, a span at a scale from 1 to 15, of at most 131 bytes.
pub fn push_span(s: Span, scale: u32, out: &mut Line)
    requires room { array_string_len out.old + 131 ≤ 2048 }
    requires low { 1 ≤ scale }
    requires high { scale ≤ 15 }
    ensures bytes { out.new.bytes ≡ out.old.bytes ++ span_text scale s }
    ensures len { array_string_len out.new ≤ array_string_len out.old + 131 }
{
    out.push_str("[");
    push_fix(s.lo, scale, out);
    out.push_str(",");
    push_fix(s.hi, scale, out);
    out.push_str("]");
}

/// Appends ` NAME [a,b]`: a span at a scale from 1 to 15 after its name, which has at most 8 bytes.
pub fn push_named_span(name: &str, s: Span, scale: u32, out: &mut Line)
    requires short { length name.now ≤ 8 }
    requires room { array_string_len out.old + 141 ≤ 2048 }
    requires low { 1 ≤ scale }
    requires high { scale ≤ 15 }
    ensures bytes { out.new.bytes ≡ out.old.bytes ++ named_span name.now scale s }
    ensures len { array_string_len out.new ≤ array_string_len out.old + 141 }
{
    out.push_str(" ");
    out.push_str(name);
    out.push_str(" ");
    push_span(s, scale, out);
}

/// The name of a cause of loss.
pub(crate) fn why_name(why: Why) -> &'static str
    ensures name { result.now ≡ why_text why }
    ensures short { length result.now ≤ 5 }
{
    match why {
        Why::Root => "root",
        Why::Zero => "zero",
        Why::Range => "range",
    }
}

/// Appends `[a,b]`, a value at a scale from 1 to 15, or `lost` and the cause, of at most 131 bytes;
/// nothing where it is empty.
pub(crate) fn push_value(value: &Step<Span>, scale: u32, out: &mut Line)
    requires room { array_string_len out.old + 131 ≤ 2048 }
    requires low { 1 ≤ scale }
    requires high { scale ≤ 15 }
    ensures bytes { out.new.bytes ≡ out.old.bytes ++ value_text scale value.now }
    ensures len { array_string_len out.new ≤ array_string_len out.old + 131 }
{
    match value {
        Step::Val(span) => push_span(*span, scale, out),
        Step::Lost(why) => {
            out.push_str("lost ");
            out.push_str(why_name(*why));
        }
        Step::Empty => {}
    }
}

/// A unit as it is printed: from 33 to 126 as itself, and every other as `?`.
fn printed(unit: u16) -> u8
    ensures value { result ≡ unit_byte unit }
    ensures ascii { result < 128 }
{
    if 33 <= unit && unit <= 126 {
        unit as u8
    } else {
        b'?'
    }
}

/// Appends one byte of ASCII.
fn push_byte(byte: u8, out: &mut Line)
    requires ascii { byte < 128 }
    requires room { array_string_len out.old < 2048 }
    ensures bytes { out.new.bytes ≡ out.old.bytes ++ byte ∷ [] }
    ensures len { array_string_len out.new ≡ array_string_len out.old + 1 }
{
    out.push(char::from(byte));
}

/// Appends a name, unit by unit, of at most 40 bytes.
pub fn push_name(name: &Name, out: &mut Line)
    requires { array_string_len out.old + 40 ≤ 2048 }
    ensures bytes { out.new.bytes ≡ out.old.bytes ++ name_text name.now.items }
    ensures len { array_string_len out.new ≤ array_string_len out.old + 40 }
{
    for unit in name.as_slice() {
        push_byte(printed(*unit), out);
    }
}
