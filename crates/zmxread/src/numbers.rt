//! Numbers among the words of a record.

ghost use Rattle.std.specs.Prelude.{◌≡◌, ◌<◌, Some, None, length, IfOk, IfErr, OnOk};
ghost use Rattle.fixdec.specs.Reading.{decimal_of};
ghost use Rattle.lensmodel.specs.Files.LensFaults.{index_of, bad_decimal, bad_index};
ghost use Rattle.lensmodel.specs.Files.Records.{word_at, is_number};

use fixdec::dec::Dec;
use lensmodel::fault::ZmxFault;
use records::line::Line;
use records::number::{BadNumber, decimal, whole};

/// The fault of a bad number in the line of a number.
fn in_line(at: u32, bad: BadNumber) -> ZmxFault
    ensures { result ≡ ZmxFault.BadNumber at bad.word }
{
    ZmxFault::BadNumber {
        line: at,
        word: bad.word,
    }
}

/// The decimal of the word at `k`, from 0.
pub fn number(line: &Line<'_>, at: u32, k: usize) -> Result<Dec, ZmxFault>
    requires within { k < 64 }
    requires there { k < length line.now }
    ensures number { IfOk result (λ d. decimal_of (word_at k line.now) ≡ Some d) }
    ensures sound { OnOk result (bad_decimal at k line.now ≡ None) }
    ensures fault { IfErr result (λ f. bad_decimal at k line.now ≡ Some f) }
{
    line.number(k).map_err(|bad| in_line(at, bad))
}

/// The number of a surface, coefficient or wavelength, which is the word at `k`, from 0.
pub fn index(line: &Line<'_>, at: u32, k: usize) -> Result<u32, ZmxFault>
    requires within { k < 64 }
    requires there { k < length line.now }
    ensures number { IfOk result (λ i. index_of (word_at k line.now) ≡ Some i) }
    ensures sound { OnOk result (bad_index at k line.now ≡ None) }
    ensures fault { IfErr result (λ f. bad_index at k line.now ≡ Some f) }
{
    line.whole(k, 65_535).map_err(|bad| in_line(at, bad))
}

/// Whether a word is a decimal equal to 1.
pub fn is_one(word: &[u16]) -> bool
    ensures { result ≡ is_number 1 word.now }
{
    match decimal(word) {
        Some(d) => whole(&d, 1) == Some(1),
        None => false,
    }
}
