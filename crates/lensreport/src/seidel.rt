//! The lines of Seidel sums.

ghost use Rattle.std.specs.Prelude.{◌≡◌, ◌+◌, ◌≤◌, ◌++◌, []};
ghost use Rattle.arrayvec.specs.ArrayString.{array_string_len};
ghost use Rattle.lensmodel.specs.Texts.SeidelSums as texts;
ghost use Rattle.lensreport.specs.Paraxial.{set_head, sums_line, whole_line};

use crate::pieces::{Line, push_number, push_value};
use lensmodel::paraxial::Five;

/// Writes `seidel lines n`. The line is empty before, here and below.
pub fn print_seidel_head(count: u64, out: &mut Line)
    requires { out.old.bytes ≡ [] }
    ensures { out.new.bytes ≡ texts.seidel_head count }
{
    out.push_str("seidel lines ");
    push_number(count, out);
    out.push_str("\n");
}

/// Writes `set i scale S`, the line before the sums of a marginal and a chief ray.
pub fn print_set_head(i: u64, scale: u32, out: &mut Line)
    requires { out.old.bytes ≡ [] }
    ensures { out.new.bytes ≡ set_head i scale }
{
    out.push_str("set ");
    push_number(i, out);
    out.push_str(" scale ");
    push_number(u64::from(scale), out);
    out.push_str("\n");
}

/// Appends ` S1 [a,b] S2 [a,b] S3 [a,b] S4 [a,b] S5 [a,b]`.
fn push_five(scale: u32, sums: &Five, out: &mut Line)
    requires room { array_string_len out.old ≤ 512 }
    requires low { 1 ≤ scale }
    requires high { scale ≤ 15 }
    ensures bytes { out.new.bytes ≡ out.old.bytes ++ texts.five_text scale sums.now }
    ensures len { array_string_len out.new ≤ array_string_len out.old + 675 }
{
    out.push_str(" S1 ");
    push_value(&sums.s1, scale, out);
    out.push_str(" S2 ");
    push_value(&sums.s2, scale, out);
    out.push_str(" S3 ");
    push_value(&sums.s3, scale, out);
    out.push_str(" S4 ");
    push_value(&sums.s4, scale, out);
    out.push_str(" S5 ");
    push_value(&sums.s5, scale, out);
}

/// Writes `surf j S1 [a,b] S2 [a,b] S3 [a,b] S4 [a,b] S5 [a,b]`, the sums of surface `j`. The scale
/// is from 1 to 15, here and below.
pub fn print_sums(scale: u32, j: u32, sums: &Five, out: &mut Line)
    requires empty { out.old.bytes ≡ [] }
    requires low { 1 ≤ scale }
    requires high { scale ≤ 15 }
    ensures { out.new.bytes ≡ sums_line scale j sums.now }
{
    out.push_str("surf ");
    push_number(u64::from(j), out);
    push_five(scale, sums, out);
    out.push_str("\n");
}

/// Writes `whole S1 [a,b] S2 [a,b] S3 [a,b] S4 [a,b] S5 [a,b]`, the sums of the whole lens.
pub fn print_whole(scale: u32, sums: &Five, out: &mut Line)
    requires empty { out.old.bytes ≡ [] }
    requires low { 1 ≤ scale }
    requires high { scale ≤ 15 }
    ensures { out.new.bytes ≡ whole_line scale sums.now }
{
    out.push_str("whole");
    push_five(scale, sums, out);
    out.push_str("\n");
}
