//! The lines of a file, and their words.

ghost use Rattle.std.specs.Prelude.{◌≡◌, ◌≢◌, ◌^◌, ◌<◌, ◌≤◌, Ok, Err, None, Some, [], length, take, map, slice_range, slice_index_or, IfOk, IfErr, OnOk};
ghost use Rattle.std.specs.List.{All};
ghost use Rattle.lensmodel.specs.Files.TextLines.{text, lines, words, first_line_fault};
ghost use Rattle.lenstext.specs.Cuts.{cut, start_of, Fits};
ghost use Rattle.lenstext.specs.Ranges.{word_ranges};

use crate::line::{check_line, line_end};
use crate::unit::read_units;
use crate::word::next_word;
use arrayvec::ArrayVec;
use lensmodel::fault::TextFault;
use std::alloc::Global;
use std::marker::Model;

/// The lines of a file, fewer than 2^32, each of at most 4,096 units and without its line feed.
#[derive(Drop)]
pub struct Text {
    /// All units of the file, line feeds among them.
    units: Vec<u16>,
    /// Where each line ends.
    ends: Vec<u32>,
}

impl Model for Text {
    ghost use Rattle.std.specs.Prelude.{List, ℕ, ◌<◌, ◌^◌, length};
    ghost use Rattle.lenstext.specs.Cuts.{cut, Fits};

    ghost Value = { List (List ℕ) };

    ghost view = { λ t. cut 0 t.units.items t.ends.items };

    ghost invariant = { λ t. Fits 0 (length t.units.items) t.ends.items
        × (length t.ends.items < 2 ^ 32) };
}

/// The lines of a file. Bytes FF FE begin UTF-16, little endian, and EF BB BF are passed over; in
/// every other file each byte is one unit. A line ends at a line feed or at the end of the file.
///
/// Refused are an odd number of bytes after FF FE, and else the first line with a fault: a lone
/// surrogate, and else more than 4,096 units. Lines are counted from 1.
///
/// `Memory` comes for want of memory alone, and for 2^32 bytes or more behind the mark.
pub fn decode(alloc: Global, bytes: &[u8]) -> Result<Text, TextFault>
    // The lines, and only of a file without a fault.
    ensures lines { IfOk result (λ t. text bytes.now ≡ Ok t) }
    // Each fault, and only where it stands.
    ensures fault { IfErr result (λ f. f ≢ TextFault.Memory → text bytes.now ≡ Err f) }
{
    let units = read_units(alloc, bytes)?;
    let ends = line_ends(alloc, &units)?;
    Ok(Text { units, ends })
}

/// Where each line ends.
fn line_ends(alloc: Global, units: &[u16]) -> Result<Vec<u32>, TextFault>
    requires { length units.now < 2 ^ 32 }
    ensures lines { IfOk result (λ ends. cut 0 units.now ends.items ≡ lines units.now) }
    ensures shape { IfOk result (λ ends. Fits 0 (length units.now) ends.items) }
    ensures few { IfOk result (λ ends. length ends.items < 2 ^ 32) }
    ensures sound { OnOk result (first_line_fault 1 (lines units.now) ≡ None) }
    ensures fault { IfErr result (λ f. f ≢ TextFault.Memory
        → first_line_fault 1 (lines units.now) ≡ Some f) }
{
    let mut ends = Vec::new(alloc);
    let mut start = 0;
    while start < units.len() {
        let end = line_end(units, start);
        check_line(&units[start..end], ends.len() as u32 + 1)?;
        ends.push(end as u32).map_err(|_| TextFault::Memory)?;
        start = end + 1;
    }
    Ok(ends)
}

/// Where line `i` starts, from where each line ends.
fn start_of_line(ends: &[u32], i: usize) -> usize
    requires { i < length ends.now }
    ensures { result ≡ start_of 0 ends.now i }
{
    if i == 0 { 0 } else { ends[i - 1] as usize + 1 }
}

impl Text {
    /// How many lines there are.
    pub fn count(&self) -> usize
        ensures count { result ≡ length self.now }
        ensures small { result < 4294967296 }
    {
        self.ends.len()
    }

    /// The line at `i`, from 0: at most 4,096 units.
    pub fn line(&self, i: usize) -> &[u16]
        requires { i < length self.now }
        ensures line { result.now ≡ slice_index_or self.now i [] }
        ensures short { length result.now ≤ 4096 }
    {
        let start = start_of_line(&self.ends, i);
        let end = self.ends[i] as usize;
        &self.units[start..end]
    }

    /// Puts the start and the end of each of the first 64 words of the line at `i`, from 0, in place
    /// of what `out` held.
    pub fn words(&self, i: usize, out: &mut ArrayVec<(usize, usize), 64>)
        requires { i < length self.now }
        ensures ranges { out.new.items ≡ take 64 (word_ranges (slice_index_or self.now i [])) }
        // The line cut at these ranges gives its words.
        ensures words { let line = slice_index_or self.now i [] in
            map (λ r. slice_range line r.0 r.1) out.new.items ≡ take 64 (words line) }
        ensures within { let line = slice_index_or self.now i [] in
            All (λ r. (r.0 < r.1) × (r.1 ≤ length line)) out.new.items }
    {
        out.clear();
        let line = self.line(i);
        let mut from = 0;
        while !out.is_full() {
            let Some(word) = next_word(line, from) else {
                return;
            };
            out.push(word);
            from = word.1;
        }
    }
}
