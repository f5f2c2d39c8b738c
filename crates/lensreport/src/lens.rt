//! The lines of a lens, and of the tags of its file that aren't used.

ghost use Rattle.std.specs.Prelude.{◌≡◌, ◌+◌, ◌≤◌, ◌<◌, ◌++◌, [], ◌∷◌, length, slice_index_or};
ghost use Rattle.arrayvec.specs.ArrayString.{array_string_len};
ghost use Rattle.lensmodel.specs.Setup.Values.{plane};
ghost use Rattle.lensmodel.specs.Setup.Zones.{surface_zone};
ghost use Rattle.lensmodel.specs.Texts.Lens as texts;

use crate::pieces::{Line, push_decimal, push_name, push_number, push_span};
use arrayvec::ArrayString;
use fixdec::dec::Dec;
use lensmodel::name::Name;
use lensmodel::prescription::Prescription;
use lensmodel::surface::{Surface, SurfaceKind};
use prescript::asphere::zone;
use prescript::print::line;

/// Writes `lens surfaces n stop s primary i`. The line is empty before, here and below.
pub fn print_lens(lens: &Prescription, out: &mut Line)
    requires { out.old.bytes ≡ [] }
    ensures { out.new.bytes ≡ texts.lens_line lens.now }
{
    out.push_str("lens surfaces ");
    push_number(lens.surfaces.len() as u64, out);
    out.push_str(" stop ");
    push_number(u64::from(lens.stop), out);
    out.push_str(" primary ");
    push_number(u64::from(lens.primary), out);
    out.push_str("\n");
}

/// Writes `surf j TYPE c DEC k DEC d DEC rim DEC glass NAME`, the line of surface `j`, which is below
/// the count of surfaces.
pub fn print_surface(lens: &Prescription, j: u32, out: &mut Line)
    requires surface { j < length lens.now.surfaces.items }
    requires empty { out.old.bytes ≡ [] }
    ensures { out.new.bytes
        ≡ texts.surface_line j (slice_index_or lens.now.surfaces.items j plane) }
{
    let mut text = ArrayString::<1024>::new();
    line(lens, j, &mut text);
    let _fits = text.len();
    out.push_str(text.as_str());
}

/// Appends `parm j i DEC`, the line of a coefficient that isn't 0.
fn push_coefficient(j: u32, i: u32, a: &Dec, out: &mut Line)
    requires { array_string_len out.old + 200 ≤ 2048 }
    ensures bytes { out.new.bytes ≡ out.old.bytes ++ texts.coefficient_line j i a.now }
    ensures len { array_string_len out.new ≤ array_string_len out.old + 200 }
{
    if a.mant != 0 {
        out.push_str("parm ");
        push_number(u64::from(j), out);
        out.push_str(" ");
        push_number(u64::from(i), out);
        out.push_str(" ");
        push_decimal(a, out);
        out.push_str("\n");
    }
}

/// Appends `zone j [a,b]`, the line of an even asphere's zone; the object has none.
fn push_zone(s: &Surface, j: u32, out: &mut Line)
    requires asphere { s.now.kind ≡ SurfaceKind.EvenAsph }
    requires room { array_string_len out.old + 202 ≤ 2048 }
    ensures { out.new.bytes ≡ out.old.bytes ++ texts.zone_line j (surface_zone s.now) }
{
    match zone(s) {
        Some(span) if j > 0 => {
            out.push_str("zone ");
            push_number(u64::from(j), out);
            out.push_str(" ");
            push_span(span, 9, out);
            out.push_str("\n");
        }
        _ => {}
    }
}

/// Writes what follows the line of an even asphere, surface `j`: `parm j i DEC` for each coefficient
/// that isn't 0, and `zone j [a,b]` from surface 1 on. Nothing for a standard surface.
pub fn print_asphere(s: &Surface, j: u32, out: &mut Line)
    requires { out.old.bytes ≡ [] }
    ensures { out.new.bytes ≡ texts.asphere_lines s.now.kind j s.now }
{
    match s.kind {
        SurfaceKind::Standard => {}
        SurfaceKind::EvenAsph => {
            push_coefficient(j, 1, &s.a1, out);
            push_coefficient(j, 2, &s.a2, out);
            push_coefficient(j, 3, &s.a3, out);
            push_coefficient(j, 4, &s.a4, out);
            push_coefficient(j, 5, &s.a5, out);
            push_coefficient(j, 6, &s.a6, out);
            push_coefficient(j, 7, &s.a7, out);
            push_coefficient(j, 8, &s.a8, out);
            push_zone(s, j, out);
        }
    }
}

/// Writes `wave i DEC`, a wavelength in micrometres by its number; nothing where it isn't given.
pub fn print_wave(i: u32, wave: Option<Dec>, out: &mut Line)
    requires { out.old.bytes ≡ [] }
    ensures { out.new.bytes ≡ texts.wave_line i wave }
{
    if let Some(wave) = wave {
        out.push_str("wave ");
        push_number(u64::from(i), out);
        out.push_str(" ");
        push_decimal(&wave, out);
        out.push_str("\n");
    }
}

/// Writes `unused TAG count`: a tag whose lines aren't used, and how many they are.
pub fn print_unused(tag: &Name, count: u64, out: &mut Line)
    requires { out.old.bytes ≡ [] }
    ensures { out.new.bytes ≡ texts.unused_lines ((tag.now.items, count) ∷ []) }
{
    out.push_str("unused ");
    push_name(tag, out);
    out.push_str(" ");
    push_number(count, out);
    out.push_str("\n");
}
