//! The lines of a glass catalogue.

ghost use Rattle.std.specs.Prelude.{◌≡◌, ◌+◌, ◌≤◌, ◌++◌, []};
ghost use Rattle.arrayvec.specs.ArrayString.{array_string_len};
ghost use Rattle.lensmodel.specs.Texts.Book.{glasses_line, glass_line, glass_head, glass_range, glass_coefficients};
ghost use Rattle.lensmodel.specs.Texts.Pieces.{bound_text, spaced};

use crate::pieces::{Line, push_decimal, push_name, push_number};
use fixdec::dec::Dec;
use lensmodel::glass::Glass;

/// Writes `glasses n`, the number of glasses. The line is empty before, here and below.
pub fn print_glasses(count: usize, out: &mut Line)
    requires { out.old.bytes ≡ [] }
    ensures { out.new.bytes ≡ glasses_line count }
{
    out.push_str("glasses ");
    push_number(count as u64, out);
    out.push_str("\n");
}

/// Appends a bound, or `-` where there is none.
fn push_bound(bound: Option<Dec>, out: &mut Line)
    requires { array_string_len out.old ≤ 1024 }
    ensures bytes { out.new.bytes ≡ out.old.bytes ++ bound_text bound }
    ensures len { array_string_len out.new ≤ array_string_len out.old + 64 }
{
    match bound {
        None => out.push_str("-"),
        Some(value) => push_decimal(&value, out),
    }
}

/// Appends a decimal after a space.
fn push_spaced(v: &Dec, out: &mut Line)
    requires { array_string_len out.old ≤ 1024 }
    ensures bytes { out.new.bytes ≡ out.old.bytes ++ spaced v.now }
    ensures len { array_string_len out.new ≤ array_string_len out.old + 65 }
{
    out.push_str(" ");
    push_decimal(v, out);
}

/// Appends `glass NAME formula F`.
fn push_head(glass: &Glass, out: &mut Line)
    requires { out.old.bytes ≡ [] }
    ensures bytes { out.new.bytes ≡ glass_head glass.now }
    ensures len { array_string_len out.new ≤ 120 }
{
    out.push_str("glass ");
    push_name(&glass.name, out);
    out.push_str(" formula ");
    push_number(u64::from(glass.formula), out);
}

/// Appends ` low DEC high DEC`.
fn push_range(glass: &Glass, out: &mut Line)
    requires { array_string_len out.old ≤ 120 }
    ensures bytes { out.new.bytes ≡ out.old.bytes ++ glass_range glass.now }
    ensures len { array_string_len out.new ≤ array_string_len out.old + 140 }
{
    out.push_str(" low ");
    push_bound(glass.low, out);
    out.push_str(" high ");
    push_bound(glass.high, out);
}

/// Appends ` coef DEC DEC DEC DEC DEC DEC`.
fn push_coefficients(glass: &Glass, out: &mut Line)
    requires { array_string_len out.old ≤ 300 }
    ensures bytes { out.new.bytes ≡ out.old.bytes ++ glass_coefficients glass.now }
    ensures len { array_string_len out.new ≤ array_string_len out.old + 400 }
{
    out.push_str(" coef");
    push_spaced(&glass.c0, out);
    push_spaced(&glass.c1, out);
    push_spaced(&glass.c2, out);
    push_spaced(&glass.c3, out);
    push_spaced(&glass.c4, out);
    push_spaced(&glass.c5, out);
}

/// Writes `glass NAME formula F low DEC high DEC coef DEC DEC DEC DEC DEC DEC`, with `-` for a
/// missing bound.
pub fn print_glass(glass: &Glass, out: &mut Line)
    requires { out.old.bytes ≡ [] }
    ensures { out.new.bytes ≡ glass_line glass.now }
{
    push_head(glass, out);
    push_range(glass, out);
    push_coefficients(glass, out);
    out.push_str("\n");
}
