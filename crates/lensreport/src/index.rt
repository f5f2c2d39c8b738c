//! The line of one index.

ghost use Rattle.std.specs.Prelude.{◌≡◌, []};
ghost use Rattle.lensmodel.specs.Texts.Index.{index_line};

use crate::pieces::{Line, push_decimal, push_name, push_span};
use fixdec::dec::Dec;
use fixdec::span::Span;
use lensmodel::name::Name;

/// Writes `index NAME LAMBDA [a,b]`: the catalogue's name of the glass, the wavelength in
/// micrometres, and the index at scale 12. The line is empty before.
pub fn print_index(name: &Name, wave: &Dec, n: Span, out: &mut Line)
    requires { out.old.bytes ≡ [] }
    ensures { out.new.bytes ≡ index_line name.now.items wave.now n }
{
    out.push_str("index ");
    push_name(name, out);
    out.push_str(" ");
    push_decimal(wave, out);
    out.push_str(" ");
    push_span(n, 12, out);
    out.push_str("\n");
}
