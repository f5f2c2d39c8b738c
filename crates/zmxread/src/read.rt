//! The lens of a file.

ghost use Rattle.std.specs.Prelude.{◌≡◌, ◌≢◌, Ok, Err, IfOk, IfErr};
ghost use Rattle.lensmodel.specs.Files.Lens.{prescription, of_lines};
ghost use Rattle.lensmodel.specs.Files.Records.{each_words};
ghost use Rattle.lensmodel.specs.Setup.WellFormed.{IsSound};
ghost use Rattle.zmxread.specs.File.{lens_file};

use crate::file::ZmxFile;
use crate::walk::Reader;
use lensmodel::fault::{TextFault, ZmxFault};
use lenstext::text::{Text, decode};
use records::walk::read_lines;
use std::alloc::Global;

/// The lens of a file in ZMX form, and the tags that aren't used.
///
/// Refused are a file whose text is at fault; else the first line with a fault, by its number from 1;
/// else a lens that is at fault as a whole, by its first whole fault. In a line a missing word comes
/// first, then the leftmost word that is no number of its place, then any other fault.
///
/// `Memory` comes for want of memory alone, for 2^32 bytes or more behind the mark of a file, and
/// for 2^64 lines of one tag.
pub fn read_zmx(alloc: Global, bytes: &[u8]) -> Result<ZmxFile, ZmxFault>
    // The lens and the unused tags, each field of a surface by the last line of its tag.
    ensures file { IfOk result (λ f. prescription bytes.now ≡ Ok (lens_file f)) }
    // Such a lens has no whole fault, and each of its decimals is one that is read.
    ensures sound { IfOk result (λ f. IsSound f.lens) }
    // Each fault, and only where it stands.
    ensures fault { IfErr result (λ f. f ≢ ZmxFault.Memory → prescription bytes.now ≡ Err f) }
{
    match decode(alloc, bytes) {
        Ok(text) => read_lens(alloc, &text),
        Err(fault) => Err(text_fault(fault)),
    }
}

/// Why a lens file is refused whose text is.
fn text_fault(fault: TextFault) -> ZmxFault
    ensures text { fault ≢ TextFault.Memory → result ≡ ZmxFault.Text fault }
    ensures memory { fault ≡ TextFault.Memory → result ≡ ZmxFault.Memory }
{
    match fault {
        TextFault::Memory => ZmxFault::Memory,
        TextFault::OddByte => ZmxFault::Text(fault),
        TextFault::Surrogate { .. } => ZmxFault::Text(fault),
        TextFault::LongLine { .. } => ZmxFault::Text(fault),
    }
}

/// What lines say, or the fault of the first line that has one, or of the whole lens.
fn read_lens(alloc: Global, text: &Text) -> Result<ZmxFile, ZmxFault>
    ensures file { IfOk result (λ f. of_lines (each_words text.now) ≡ Ok (lens_file f)) }
    ensures sound { IfOk result (λ f. IsSound f.lens) }
    ensures fault { IfErr result
        (λ f. f ≢ ZmxFault.Memory → of_lines (each_words text.now) ≡ Err f) }
{
    let mut reader = Reader::new(alloc);
    read_lines(text, &mut reader)?;
    reader.finish()
}
