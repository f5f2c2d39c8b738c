//! The line of a ray as a JSON object.

ghost use Rattle.std.specs.Prelude.{◌≡◌, ◌≤◌, IfOk, OnOk};
ghost use Rattle.fixdec.specs.DecimalText.{fix_text};
ghost use Rattle.lensmodel.specs.Texts.JsonRows.{json_line};
ghost use Rattle.lensmodel.specs.Texts.Rows.{word_name as word_text};
ghost use Rattle.lensreport.specs.JsonData as data_of;
ghost use Rattle.serde_json.specs.Data.{string as json_string, array as json_array, put};
ghost use Rattle.serde_json.specs.View.{view, members_view};

use crate::pieces::why_name;
use arrayvec::ArrayString;
use exactdec::print::print_fix;
use fixdec::span::Span;
use lensmodel::row::{Heading, Place, Row, Word};
use serde_json::{Map, Value};
use std::alloc::{AllocError, Global};

/// There is no memory for a line.
#[derive(Clone, Copy, Debug, PartialEq, Eq)]
pub struct ReportFull;

impl From<AllocError> for ReportFull {
    fn from(_full: AllocError) -> ReportFull {
        ReportFull
    }
}

/// A raw number at a scale from 1 to 15, as a text.
fn fix_value(alloc: Global, raw: i128, scale: u32) -> Result<Value, AllocError>
    requires low { 1 ≤ scale }
    requires high { scale ≤ 15 }
    ensures { IfOk result (λ v. view v ≡ json_string (fix_text scale raw)) }
{
    let mut text = ArrayString::<64>::new();
    print_fix(raw, scale, &mut text);
    Value::try_from_str(alloc, text.as_str())
}

/// A span at a scale from 1 to 15, as the texts of its ends.
fn span_value(alloc: Global, s: Span, scale: u32) -> Result<Value, AllocError>
    requires low { 1 ≤ scale }
    requires high { scale ≤ 15 }
    ensures { IfOk result (λ v. view v ≡ data_of.span_data scale s) }
{
    let mut ends = Vec::new(alloc);
    ends.push(fix_value(alloc, s.lo, scale)?)?;
    ends.push(fix_value(alloc, s.hi, scale)?)?;
    Ok(Value::Array(ends))
}

/// Puts a span at a scale from 1 to 15 into an object.
fn put_span(
    members: &mut Map<String, Value>,
    alloc: Global,
    key: &str,
    s: Span,
    scale: u32,
) -> Result<(), AllocError>
    requires low { 1 ≤ scale }
    requires high { scale ≤ 15 }
    ensures { OnOk result (members_view members.new.entries
        ≡ put key.now (data_of.span_data scale s) (members_view members.old.entries)) }
{
    serde_json::put(members, alloc, key, span_value(alloc, s, scale)?)
}

/// Puts a number into an object.
fn put_count(
    members: &mut Map<String, Value>,
    alloc: Global,
    key: &str,
    n: u32,
) -> Result<(), AllocError>
    ensures { OnOk result (members_view members.new.entries
        ≡ put key.now (data_of.count_data n) (members_view members.old.entries)) }
{
    serde_json::put(members, alloc, key, Value::from(n))
}

/// Puts a text into an object.
fn put_text(
    members: &mut Map<String, Value>,
    alloc: Global,
    key: &str,
    text: &str,
) -> Result<(), AllocError>
    ensures { OnOk result (members_view members.new.entries
        ≡ put key.now (json_string text.now) (members_view members.old.entries)) }
{
    serde_json::put(members, alloc, key, Value::try_from_str(alloc, text)?)
}

/// The members of a heading, `L`, `M` and `N`; none where there is no heading.
fn heading_members(
    alloc: Global,
    heading: &Option<Heading>,
    scale: u32,
) -> Result<Map<String, Value>, AllocError>
    requires low { 1 ≤ scale }
    requires high { scale ≤ 15 }
    ensures { IfOk result
        (λ m. members_view m.entries ≡ data_of.heading_members scale heading.now) }
{
    let mut members = Map::new(alloc);
    match heading {
        None => Ok(members),
        Some(h) => {
            put_span(&mut members, alloc, "L", h.l, scale)?;
            put_span(&mut members, alloc, "M", h.m, scale)?;
            put_span(&mut members, alloc, "N", h.n, scale)?;
            Ok(members)
        }
    }
}

/// A place at a scale from 1 to 15.
fn place_value(alloc: Global, p: &Place, scale: u32) -> Result<Value, AllocError>
    requires low { 1 ≤ scale }
    requires high { scale ≤ 15 }
    ensures { IfOk result (λ v. view v ≡ data_of.place_data scale p.now) }
{
    let mut members = heading_members(alloc, &p.heading, scale)?;
    put_span(&mut members, alloc, "path", p.path, scale)?;
    put_span(&mut members, alloc, "rho", p.rho, scale)?;
    put_span(&mut members, alloc, "x", p.x, scale)?;
    put_span(&mut members, alloc, "y", p.y, scale)?;
    put_span(&mut members, alloc, "z", p.z, scale)?;
    Ok(Value::Object(members))
}

/// Places at a scale from 1 to 15.
fn places_value(alloc: Global, places: &[Place], scale: u32) -> Result<Value, AllocError>
    requires low { 1 ≤ scale }
    requires high { scale ≤ 15 }
    ensures { IfOk result (λ v. view v ≡ json_array (data_of.places_data scale places.now)) }
{
    let mut values = Vec::new(alloc);
    for p in places {
        values.push(place_value(alloc, p, scale)?)?;
    }
    Ok(Value::Array(values))
}

/// The name of a word.
fn word_name(word: &Word) -> &'static str
    ensures { result.now ≡ word_text word.now }
{
    match word {
        Word::Passes => "passes",
        Word::Vignetted(_) => "vignetted",
        Word::Outside(_) => "outside",
        Word::Tir(_) => "tir",
        Word::Undecided(_, _, _) => "undecided",
        Word::Wide => "wide",
        Word::Lost(_, _) => "lost",
    }
}

/// The members that say a word: its name, the surface, the intervals that overlap, the cause of a
/// loss.
fn word_members(alloc: Global, word: &Word, scale: u32) -> Result<Map<String, Value>, AllocError>
    requires low { 1 ≤ scale }
    requires high { scale ≤ 15 }
    ensures { IfOk result (λ m. members_view m.entries ≡ data_of.word_members scale word.now) }
{
    let mut members = Map::new(alloc);
    put_text(&mut members, alloc, "word", word_name(word))?;
    match word {
        Word::Passes | Word::Wide => Ok(members),
        Word::Vignetted(j) | Word::Outside(j) | Word::Tir(j) => {
            put_count(&mut members, alloc, "at", *j)?;
            Ok(members)
        }
        Word::Undecided(j, rho, rim2) => {
            put_count(&mut members, alloc, "at", *j)?;
            put_span(&mut members, alloc, "rho", *rho, scale)?;
            put_span(&mut members, alloc, "rim2", *rim2, scale)?;
            Ok(members)
        }
        Word::Lost(j, why) => {
            put_count(&mut members, alloc, "at", *j)?;
            put_text(&mut members, alloc, "why", why_name(*why))?;
            Ok(members)
        }
    }
}

/// The row of ray `i` as an object; its scale is from 1 to 15.
fn row_value(alloc: Global, i: u32, r: &Row) -> Result<Value, AllocError>
    requires low { 1 ≤ r.now.scale }
    requires high { r.now.scale ≤ 15 }
    ensures { IfOk result (λ v. view v ≡ data_of.row_data i r.now) }
{
    let mut members = word_members(alloc, &r.word, r.scale)?;
    put_count(&mut members, alloc, "ray", i)?;
    put_count(&mut members, alloc, "scale", r.scale)?;
    let places = places_value(alloc, r.places.as_slice(), r.scale)?;
    serde_json::put(&mut members, alloc, "surfaces", places)?;
    Ok(Value::Object(members))
}

/// The text of an object, and the end of its line.
fn row_line(alloc: Global, i: u32, r: &Row) -> Result<Vec<u8>, AllocError>
    requires low { 1 ≤ r.now.scale }
    requires high { r.now.scale ≤ 15 }
    ensures { IfOk result (λ text. text.items ≡ json_line i r.now) }
{
    let mut text = row_value(alloc, i, r)?.to_vec(alloc)?;
    text.push(b'\n')?;
    Ok(text)
}

/// The line of ray `i` as a compact JSON object with its keys in the order of their bytes. The scale
/// of the row is from 1 to 15. ReportFull only for want of memory.
pub fn json_row(alloc: Global, i: u32, r: &Row) -> Result<Vec<u8>, ReportFull>
    requires low { 1 ≤ r.now.scale }
    requires high { r.now.scale ≤ 15 }
    ensures { IfOk result (λ text. text.items ≡ json_line i r.now) }
{
    Ok(row_line(alloc, i, r)?)
}
