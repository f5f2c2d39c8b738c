//! The line at the end of a trace.

ghost use Rattle.std.specs.Prelude.{◌≡◌, ◌+◌, ◌≤◌, ◌<◌, ◌^◌, ◌++◌, [], ◌∷◌, List, length};
ghost use Rattle.arrayvec.specs.ArrayString.{array_string_len};
ghost use Rattle.lensmodel.specs.Texts.Rows.{total_line};
ghost use Rattle.lensmodel.specs.declared.row.Row.{Row as RowValue};
ghost use Rattle.lensreport.specs.Totals.{Counts, counts_of, counts_line, count_text, with_word};

use crate::pieces::{Line, push_number};
use lensmodel::row::{Row, Word};
use std::marker::Model;

/// How many rays there are, and how many of them have each word.
#[derive(Debug, Drop)]
pub struct Totals {
    rays: u64,
    passes: u64,
    vignetted: u64,
    outside: u64,
    tir: u64,
    undecided: u64,
    wide: u64,
    lost: u64,
}

impl Model for Totals {
    ghost Value = { Counts };

    ghost view = { λ t. record {
      rays = t.rays;
      passes = t.passes;
      vignetted = t.vignetted;
      outside = t.outside;
      tir = t.tir;
      undecided = t.undecided;
      wide = t.wide;
      lost = t.lost;
    } };

    ghost invariant = { λ t. (t.passes ≤ t.rays) × (t.vignetted ≤ t.rays) × (t.outside ≤ t.rays)
        × (t.tir ≤ t.rays)
        × (t.undecided ≤ t.rays) × (t.wide ≤ t.rays) × (t.lost ≤ t.rays) };
}

impl Totals {
    /// The totals of no rays.
    pub fn new() -> Totals
        ensures { result ≡ counts_of [] }
    {
        Totals {
            rays: 0,
            passes: 0,
            vignetted: 0,
            outside: 0,
            tir: 0,
            undecided: 0,
            wide: 0,
            lost: 0,
        }
    }

    /// Counts the row of a ray, which follows fewer than 2^32 others.
    pub fn add(&mut self, row: &Row)
        requires { self.old.rays < 2 ^ 32 }
        ensures counts { (rows : List RowValue) → self.old ≡ counts_of rows
            → self.new ≡ counts_of (rows ++ row.now ∷ []) }
        ensures rays { self.new.rays ≡ self.old.rays + 1 }
    {
        self.add_word(&row.word);
    }

    fn add_word(&mut self, word: &Word)
        requires { self.old.rays < 2 ^ 32 }
        ensures { self.new ≡ with_word self.old word.now }
    {
        self.rays += 1;
        match word {
            Word::Passes => self.passes += 1,
            Word::Vignetted(_) => self.vignetted += 1,
            Word::Outside(_) => self.outside += 1,
            Word::Tir(_) => self.tir += 1,
            Word::Undecided(..) => self.undecided += 1,
            Word::Wide => self.wide += 1,
            Word::Lost(..) => self.lost += 1,
        }
    }
}

/// Appends ` NAME n`.
fn push_count(name: &str, n: u64, out: &mut Line)
    requires short { length name.now ≤ 10 }
    requires room { array_string_len out.old ≤ 1024 }
    ensures bytes { out.new.bytes ≡ out.old.bytes ++ count_text name.now n }
    ensures len { array_string_len out.new ≤ array_string_len out.old + 76 }
{
    out.push_str(" ");
    out.push_str(name);
    out.push_str(" ");
    push_number(n, out);
}

fn print_counts(totals: &Totals, out: &mut Line)
    requires { out.old.bytes ≡ [] }
    ensures { out.new.bytes ≡ counts_line totals.now }
{
    out.push_str("total");
    push_count("rays", totals.rays, out);
    push_count("passes", totals.passes, out);
    push_count("vignetted", totals.vignetted, out);
    push_count("outside", totals.outside, out);
    push_count("tir", totals.tir, out);
    push_count("undecided", totals.undecided, out);
    push_count("wide", totals.wide, out);
    push_count("lost", totals.lost, out);
    out.push_str("\n");
}

/// Writes `total rays n passes n vignetted n outside n tir n undecided n wide n lost n`. The line is
/// empty before.
pub fn print_total(totals: &Totals, out: &mut Line)
    requires { out.old.bytes ≡ [] }
    ensures { (rows : List RowValue) → totals.now ≡ counts_of rows
        → out.new.bytes ≡ total_line rows }
{
    print_counts(totals, out);
}
