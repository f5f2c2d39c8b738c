//! The lines of traced rays.

ghost use Rattle.std.specs.Prelude.{◌≡◌, ◌+◌, ◌≤◌, ◌++◌, [], length};
ghost use Rattle.arrayvec.specs.ArrayString.{array_string_len};
ghost use Rattle.lensmodel.specs.Texts.Pieces as pieces;
ghost use Rattle.lensmodel.specs.Texts.Rows as texts;

use crate::pieces::{Line, push_decimal, push_named_span, push_number, why_name};
use fixdec::step::Why;
use lensmodel::row::{Heading, Place, Row, Word};
use lensmodel::setup::Setup;

/// Writes `trace surfaces n wave DEC res r width DEC`. The line is empty before, here and below.
pub fn print_trace_head(s: &Setup, out: &mut Line)
    requires { out.old.bytes ≡ [] }
    ensures { out.new.bytes ≡ texts.trace_head s.now }
{
    out.push_str("trace surfaces ");
    push_number(s.lens.surfaces.len() as u64, out);
    out.push_str(" wave ");
    push_decimal(&s.wave, out);
    out.push_str(" res ");
    push_number(u64::from(s.res), out);
    out.push_str(" width ");
    push_decimal(&s.width, out);
    out.push_str("\n");
}

/// The name of a word.
fn word_name(word: &Word) -> &'static str
    ensures name { result.now ≡ texts.word_name word.now }
    ensures short { length result.now ≤ 10 }
{
    match word {
        Word::Passes => "passes",
        Word::Vignetted(_) => "vignetted",
        Word::Outside(_) => "outside",
        Word::Tir(_) => "tir",
        Word::Undecided(..) => "undecided",
        Word::Wide => "wide",
        Word::Lost(..) => "lost",
    }
}

/// Appends ` j`, the number of a surface.
fn push_surface(j: u32, out: &mut Line)
    requires { array_string_len out.old ≤ 1024 }
    ensures bytes { out.new.bytes ≡ out.old.bytes ++ pieces.spaced_number j }
    ensures len { array_string_len out.new ≤ array_string_len out.old + 65 }
{
    out.push_str(" ");
    push_number(u64::from(j), out);
}

/// Appends ` j why`, where a value is lost and its cause.
fn push_loss(j: u32, why: Why, out: &mut Line)
    requires { array_string_len out.old ≤ 512 }
    ensures bytes { out.new.bytes ≡ out.old.bytes ++ texts.word_place (Word.Lost j why) }
    ensures len { array_string_len out.new ≤ array_string_len out.old + 71 }
{
    push_surface(j, out);
    out.push_str(" ");
    out.push_str(why_name(why));
}

/// Appends the surface and the cause that a word names.
fn push_word_place(word: &Word, out: &mut Line)
    requires { array_string_len out.old ≤ 512 }
    ensures bytes { out.new.bytes ≡ out.old.bytes ++ texts.word_place word.now }
    ensures len { array_string_len out.new ≤ array_string_len out.old + 71 }
{
    match word {
        Word::Passes | Word::Wide => {}
        Word::Vignetted(j) | Word::Outside(j) | Word::Tir(j) | Word::Undecided(j, ..) => {
            push_surface(*j, out);
        }
        Word::Lost(j, why) => push_loss(*j, *why, out),
    }
}

/// Appends ` rho [..] rim2 [..]`, the intervals that overlap, where the word is undecided.
fn push_word_spans(word: &Word, scale: u32, out: &mut Line)
    requires room { array_string_len out.old ≤ 512 }
    requires low { 1 ≤ scale }
    requires high { scale ≤ 15 }
    ensures bytes { out.new.bytes ≡ out.old.bytes ++ texts.word_spans scale word.now }
    ensures len { array_string_len out.new ≤ array_string_len out.old + 290 }
{
    if let Word::Undecided(_, rho, rim2) = word {
        push_named_span("rho", *rho, scale, out);
        push_named_span("rim2", *rim2, scale, out);
    }
}

/// Writes `ray i WORD scale S`, and of an undecided ray the intervals that overlap. The scale is from
/// 1 to 15.
pub fn print_ray(i: u32, row: &Row, out: &mut Line)
    requires empty { out.old.bytes ≡ [] }
    requires low { 1 ≤ row.now.scale }
    requires high { row.now.scale ≤ 15 }
    ensures { out.new.bytes ≡ texts.ray_line i row.now }
{
    out.push_str("ray ");
    push_number(u64::from(i), out);
    out.push_str(" ");
    out.push_str(word_name(&row.word));
    push_word_place(&row.word, out);
    out.push_str(" scale ");
    push_number(u64::from(row.scale), out);
    push_word_spans(&row.word, row.scale, out);
    out.push_str("\n");
}

/// Writes `at j rho [..] x [..] y [..] z [..] path [..]`.
fn push_place(scale: u32, j: u32, place: &Place, out: &mut Line)
    requires empty { out.old.bytes ≡ [] }
    requires low { 1 ≤ scale }
    requires high { scale ≤ 15 }
    ensures bytes { out.new.bytes ≡ texts.place_line scale j place.now }
    ensures len { array_string_len out.new ≤ 800 }
{
    out.push_str("at ");
    push_number(u64::from(j), out);
    push_named_span("rho", place.rho, scale, out);
    push_named_span("x", place.x, scale, out);
    push_named_span("y", place.y, scale, out);
    push_named_span("z", place.z, scale, out);
    push_named_span("path", place.path, scale, out);
    out.push_str("\n");
}

/// Appends `to j L [..] M [..] N [..]`, the line of a heading.
fn push_heading(scale: u32, j: u32, heading: &Option<Heading>, out: &mut Line)
    requires room { array_string_len out.old ≤ 800 }
    requires low { 1 ≤ scale }
    requires high { scale ≤ 15 }
    ensures { out.new.bytes ≡ out.old.bytes ++ texts.heading_line scale j heading.now }
{
    if let Some(heading) = heading {
        out.push_str("to ");
        push_number(u64::from(j), out);
        push_named_span("L", heading.l, scale, out);
        push_named_span("M", heading.m, scale, out);
        push_named_span("N", heading.n, scale, out);
        out.push_str("\n");
    }
}

/// Writes `at j rho [..] x [..] y [..] z [..] path [..]`, the place of surface `j`, and where it has a
/// heading a second line `to j L [..] M [..] N [..]`. The scale is from 1 to 15.
pub fn print_place(scale: u32, j: u32, place: &Place, out: &mut Line)
    requires empty { out.old.bytes ≡ [] }
    requires low { 1 ≤ scale }
    requires high { scale ≤ 15 }
    ensures { out.new.bytes ≡ texts.place_lines scale j place.now }
{
    push_place(scale, j, place, out);
    push_heading(scale, j, &place.heading, out);
}
