//! The printed line of a surface.

ghost use Rattle.std.specs.Prelude.{◌≡◌, ◌+◌, ◌≤◌, ◌<◌, ◌++◌, [], ◌∷◌, length, slice_index_or, option_map};
ghost use Rattle.std.specs.Fmt.{decimal};
ghost use Rattle.arrayvec.specs.ArrayString.{array_string_len};
ghost use Rattle.fixdec.specs.DecimalText.{dec_text};
ghost use Rattle.lensmodel.specs.Setup.Values.{plane, rim_of};
ghost use Rattle.lensmodel.specs.Texts.Lens as texts;
ghost use Rattle.lensmodel.specs.Texts.Pieces.{name_text, bound_text, unit_byte};

use arrayvec::ArrayString;
use exactdec::print::print_dec;
use fixdec::dec::Dec;
use lensmodel::name::Name;
use lensmodel::prescription::Prescription;
use lensmodel::surface::{Surface, SurfaceKind};

/// The line of a surface.
type Line = ArrayString<1024>;

/// Appends a decimal, of at most 64 bytes.
fn push_decimal(v: &Dec, out: &mut Line)
    requires { array_string_len out.old + 64 ≤ 1024 }
    ensures bytes { out.new.bytes ≡ out.old.bytes ++ dec_text v.now }
    ensures len { array_string_len out.new ≤ array_string_len out.old + 64 }
{
    let mut text = ArrayString::<64>::new();
    print_dec(v, &mut text);
    let _fits = text.len();
    out.push_str(text.as_str());
}

/// Appends a number, of at most 64 bytes.
fn push_number(n: u32, out: &mut Line)
    requires { array_string_len out.old + 64 ≤ 1024 }
    ensures bytes { out.new.bytes ≡ out.old.bytes ++ decimal n }
    ensures len { array_string_len out.new ≤ array_string_len out.old + 64 }
{
    push_decimal(
        &Dec {
            mant: i128::from(n),
            exp: 0,
        },
        out,
    );
}

/// A unit as it is printed: from 33 to 126 as itself, and every other as `?`.
fn printed(unit: u16) -> u8
    ensures value { result ≡ unit_byte unit }
    ensures ascii { result < 128 }
{
    if 33 <= unit && unit <= 126 {
        unit as u8
    } else {
        b'?'
    }
}

/// Appends one byte of ASCII.
fn push_byte(byte: u8, out: &mut Line)
    requires ascii { byte < 128 }
    requires room { array_string_len out.old < 1024 }
    ensures bytes { out.new.bytes ≡ out.old.bytes ++ byte ∷ [] }
    ensures len { array_string_len out.new ≡ array_string_len out.old + 1 }
{
    out.push(char::from(byte));
}

/// Appends a name, unit by unit, of at most 40 bytes.
fn push_name(name: &Name, out: &mut Line)
    requires { array_string_len out.old + 40 ≤ 1024 }
    ensures bytes { out.new.bytes ≡ out.old.bytes ++ name_text name.now.items }
    ensures len { array_string_len out.new ≤ array_string_len out.old + 40 }
{
    for unit in name.as_slice() {
        push_byte(printed(*unit), out);
    }
}

/// The word for the form of a surface.
fn kind_word(kind: SurfaceKind) -> &'static str
    ensures text { result.now ≡ texts.kind_text kind }
    ensures len { length result.now ≤ 8 }
{
    match kind {
        SurfaceKind::Standard => "STANDARD",
        SurfaceKind::EvenAsph => "EVENASPH",
    }
}

/// Appends a decimal, or the word for none.
fn push_thickness(thick: Option<Dec>, out: &mut Line)
    requires { array_string_len out.old ≤ 512 }
    ensures bytes { out.new.bytes ≡ out.old.bytes ++ texts.thickness_text thick }
    ensures len { array_string_len out.new ≤ array_string_len out.old + 64 }
{
    match thick {
        None => out.push_str("INFINITY"),
        Some(d) => push_decimal(&d, out),
    }
}

/// Appends the radius of the rim, or `-` where there is none.
fn push_rim(s: &Surface, out: &mut Line)
    requires { array_string_len out.old ≤ 512 }
    ensures bytes { out.new.bytes ≡ out.old.bytes ++ bound_text (rim_of s.now) }
    ensures len { array_string_len out.new ≤ array_string_len out.old + 64 }
{
    match &s.semi {
        Some(semi) if s.rim => push_decimal(semi, out),
        _ => out.push_str("-"),
    }
}

/// Appends what stands behind a surface: `MIRROR`, `-` for air, or the name of the glass.
fn push_medium(s: &Surface, out: &mut Line)
    requires { array_string_len out.old ≤ 512 }
    ensures bytes { out.new.bytes ≡ out.old.bytes ++ texts.medium_text s.now }
    ensures len { array_string_len out.new ≤ array_string_len out.old + 40 }
{
    match &s.glass {
        _ if s.mirror => out.push_str("MIRROR"),
        None => out.push_str("-"),
        Some(name) => push_name(name, out),
    }
}

/// Appends `surf j TYPE c DEC k DEC`.
fn push_shape(s: &Surface, j: u32, out: &mut Line)
    requires { out.old.bytes ≡ [] }
    ensures bytes { out.new.bytes ≡ texts.surface_shape j s.now }
    ensures len { array_string_len out.new ≤ 220 }
{
    out.push_str("surf ");
    push_number(j, out);
    out.push_str(" ");
    out.push_str(kind_word(s.kind));
    out.push_str(" c ");
    push_decimal(&s.curv, out);
    out.push_str(" k ");
    push_decimal(&s.conic, out);
}

/// Appends ` d DEC rim DEC glass NAME`.
fn push_rest(s: &Surface, out: &mut Line)
    requires { array_string_len out.old ≤ 220 }
    ensures bytes { out.new.bytes ≡ out.old.bytes ++ texts.surface_rest s.now }
    ensures len { array_string_len out.new ≤ array_string_len out.old + 200 }
{
    out.push_str(" d ");
    push_thickness(s.thick, out);
    out.push_str(" rim ");
    push_rim(s, out);
    out.push_str(" glass ");
    push_medium(s, out);
}

/// Writes `surf j TYPE c DEC k DEC d DEC rim DEC glass NAME`, the line of surface `j`, which is below
/// the count of surfaces: `INFINITY` for no thickness, `-` for no rim, `-` for air and `MIRROR` for a
/// mirror. The buffer is empty before.
pub fn line(lens: &Prescription, j: u32, out: &mut ArrayString<1024>)
    requires surface { j < length lens.now.surfaces.items }
    requires empty { out.old.bytes ≡ [] }
    ensures { out.new.bytes
        ≡ texts.surface_line j (slice_index_or lens.now.surfaces.items j plane) }
{
    let s = &lens.surfaces.as_slice()[j as usize];
    push_shape(s, j, out);
    push_rest(s, out);
    out.push_str("\n");
}
