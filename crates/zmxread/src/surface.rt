//! What each record of a surface changes in it.

ghost use Rattle.std.specs.Prelude.{◌≡◌, ◌<◌, ◌≤◌, Some, None, length, IfOk, IfErr, OnOk};
ghost use Rattle.lensmodel.specs.Files.LensFaults as lines;
ghost use Rattle.lensmodel.specs.Files.LensFaults.{surface_offence, TYPE_fault, decimal_fault, DISZ_fault, GLAS_fault, DIAM_fault, indexed_fault};
ghost use Rattle.fixdec.specs.Reading.{decimal_of};
ghost use Rattle.lensmodel.specs.Files.Records.{word_at, is_number};
ghost use Rattle.zmxread.specs.Changes.{kind_if, with_TYPE, with_CURV, with_DISZ, with_GLAS, with_DIAM, with_CONI, with_PARM, with_coefficient, with_medium, with_field};

use crate::names::name_of;
use crate::numbers::{index, is_one, number};
use fixdec::dec::Dec;
use lensmodel::fault::ZmxFault;
use lensmodel::surface::{Surface, SurfaceKind};
use records::line::Line;
use records::record_table;
use records::word::is_word;

/// The form of a type.
fn kind_of(word: &[u16]) -> Option<SurfaceKind>
    ensures { result ≡ kind_if word.now }
{
    if is_word(word, b"STANDARD") {
        Some(SurfaceKind::Standard)
    } else if is_word(word, b"EVENASPH") {
        Some(SurfaceKind::EvenAsph)
    } else {
        None
    }
}

/// Takes a TYPE record.
fn set_kind(surface: &mut Surface, line: &Line<'_>, at: u32) -> Result<(), ZmxFault>
    requires { 1 < length line.now }
    ensures surface { OnOk result (surface.new ≡ with_TYPE line.now surface.old) }
    ensures sound { OnOk result (TYPE_fault at line.now ≡ None) }
    ensures fault { IfErr result (λ f. TYPE_fault at line.now ≡ Some f) }
{
    match kind_of(line.known_word(1)) {
        Some(kind) => {
            surface.kind = kind;
            Ok(())
        }
        None => Err(ZmxFault::SurfaceType { line: at }),
    }
}

/// Takes a CURV record.
fn set_curvature(surface: &mut Surface, line: &Line<'_>, at: u32) -> Result<(), ZmxFault>
    requires { 1 < length line.now }
    ensures surface { OnOk result (surface.new ≡ with_CURV line.now surface.old) }
    ensures sound { OnOk result (decimal_fault at line.now ≡ None) }
    ensures fault { IfErr result (λ f. decimal_fault at line.now ≡ Some f) }
{
    surface.curv = number(line, at, 1)?;
    Ok(())
}

/// Takes a CONI record.
fn set_conic(surface: &mut Surface, line: &Line<'_>, at: u32) -> Result<(), ZmxFault>
    requires { 1 < length line.now }
    ensures surface { OnOk result (surface.new ≡ with_CONI line.now surface.old) }
    ensures sound { OnOk result (decimal_fault at line.now ≡ None) }
    ensures fault { IfErr result (λ f. decimal_fault at line.now ≡ Some f) }
{
    surface.conic = number(line, at, 1)?;
    Ok(())
}

/// Takes a DISZ record.
fn set_thickness(surface: &mut Surface, line: &Line<'_>, at: u32) -> Result<(), ZmxFault>
    requires { 1 < length line.now }
    ensures surface { OnOk result (surface.new ≡ with_DISZ line.now surface.old) }
    ensures sound { OnOk result (DISZ_fault at line.now ≡ None) }
    ensures fault { IfErr result (λ f. DISZ_fault at line.now ≡ Some f) }
{
    if is_word(line.known_word(1), b"INFINITY") {
        surface.thick = None;
        return Ok(());
    }
    let thickness = number(line, at, 1)?;
    surface.thick = Some(thickness);
    Ok(())
}

/// Puts a glass, or a mirror, behind a surface.
fn set_medium(surface: &mut Surface, word: &[u16])
    requires { length word.now ≤ 40 }
    ensures { surface.new ≡ with_medium word.now surface.old }
{
    if is_word(word, b"MIRROR") {
        surface.mirror = true;
        surface.glass = None;
    } else {
        surface.mirror = false;
        surface.glass = Some(name_of(word));
    }
}

/// Takes a GLAS record.
fn set_glass(surface: &mut Surface, line: &Line<'_>, at: u32) -> Result<(), ZmxFault>
    requires { 1 < length line.now }
    ensures surface { OnOk result (surface.new ≡ with_GLAS line.now surface.old) }
    ensures sound { OnOk result (GLAS_fault at line.now ≡ None) }
    ensures fault { IfErr result (λ f. GLAS_fault at line.now ≡ Some f) }
{
    let name = line.known_word(1);
    if name.len() > 40 {
        return Err(ZmxFault::LongName { line: at });
    }
    if is_word(name, b"___BLANK") {
        return Err(ZmxFault::ModelGlass { line: at });
    }
    set_medium(surface, name);
    Ok(())
}

/// The semi-diameter of a DIAM record.
fn semi_diameter(line: &Line<'_>, at: u32) -> Result<Dec, ZmxFault>
    requires { 1 < length line.now }
    ensures semi { IfOk result (λ d. decimal_of (word_at 1 line.now) ≡ Some d) }
    ensures sound { OnOk result (DIAM_fault at line.now ≡ None) }
    ensures fault { IfErr result (λ f. DIAM_fault at line.now ≡ Some f) }
{
    let semi = number(line, at, 1)?;
    if semi.mant < 0 {
        return Err(ZmxFault::BadNumber { line: at, word: 2 });
    }
    Ok(semi)
}

/// Whether the flag of a DIAM record makes its semi-diameter a rim.
fn has_rim(line: &Line<'_>) -> bool
    ensures { result ≡ is_number 1 (word_at 2 line.now) }
{
    match line.word(2) {
        Some(word) => is_one(word),
        None => false,
    }
}

/// Takes a DIAM record.
fn set_semi(surface: &mut Surface, line: &Line<'_>, at: u32) -> Result<(), ZmxFault>
    requires { 1 < length line.now }
    ensures surface { OnOk result (surface.new ≡ with_DIAM line.now surface.old) }
    ensures sound { OnOk result (DIAM_fault at line.now ≡ None) }
    ensures fault { IfErr result (λ f. DIAM_fault at line.now ≡ Some f) }
{
    let semi = semi_diameter(line, at)?;
    surface.semi = Some(semi);
    surface.rim = has_rim(line);
    Ok(())
}

/// Puts the coefficient `a_i` into a surface, where `i` is from 1 to 8.
fn put_coefficient(surface: &mut Surface, i: u32, a: Dec)
    ensures { surface.new ≡ with_coefficient i a surface.old }
{
    match i {
        1 => surface.a1 = a,
        2 => surface.a2 = a,
        3 => surface.a3 = a,
        4 => surface.a4 = a,
        5 => surface.a5 = a,
        6 => surface.a6 = a,
        7 => surface.a7 = a,
        8 => surface.a8 = a,
        _ => {}
    }
}

/// Takes a PARM record.
fn set_coefficient(surface: &mut Surface, line: &Line<'_>, at: u32) -> Result<(), ZmxFault>
    requires { 2 < length line.now }
    ensures surface { OnOk result (surface.new ≡ with_PARM line.now surface.old) }
    ensures sound { OnOk result (indexed_fault at line.now ≡ None) }
    ensures fault { IfErr result (λ f. indexed_fault at line.now ≡ Some f) }
{
    let i = index(line, at, 1)?;
    let a = number(line, at, 2)?;
    put_coefficient(surface, i, a);
    Ok(())
}

/// Whether a line has one of the tags of a surface.
pub fn is_of_surface(line: &Line<'_>) -> bool
    ensures { result ≡ lines.is_of_surface line.now }
{
    line.has_tag(b"TYPE")
        || line.has_tag(b"CURV")
        || line.has_tag(b"DISZ")
        || line.has_tag(b"GLAS")
        || line.has_tag(b"DIAM")
        || line.has_tag(b"CONI")
        || line.has_tag(b"PARM")
        || line.has_tag(b"STOP")
        || line.has_tag(b"COMM")
}

/// Takes a line into its surface. A line of another tag than those of its fields changes nothing.
pub fn take_field(surface: &mut Surface, line: &Line<'_>, at: u32) -> Result<(), ZmxFault>
    ensures surface { OnOk result (surface.new ≡ with_field line.now surface.old) }
    ensures sound { OnOk result (surface_offence at line.now ≡ None) }
    ensures fault { IfErr result (λ f. surface_offence at line.now ≡ Some f) }
{
    record_table!(line, ZmxFault::MissingWord { line: at } => {
        b"TYPE", 1 words => set_kind(surface, line, at),
        b"CURV", 1 words => set_curvature(surface, line, at),
        b"DISZ", 1 words => set_thickness(surface, line, at),
        b"GLAS", 1 words => set_glass(surface, line, at),
        b"DIAM", 1 words => set_semi(surface, line, at),
        b"CONI", 1 words => set_conic(surface, line, at),
        b"PARM", 2 words => set_coefficient(surface, line, at),
    } else Ok(()))
}
