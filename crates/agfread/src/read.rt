//! The glasses of a catalogue.

ghost use Rattle.std.specs.Prelude.{◌≡◌, ◌≢◌, ◌<◌, length, Ok, Err, IfOk, IfErr, if◌then◌else◌};
ghost use Rattle.lensmodel.specs.Files.Catalogue.{catalogue, of_lines};
ghost use Rattle.lensmodel.specs.Files.Records.{each_words};

use crate::walk::Reader;
use glassbook::book::GlassBook;
use lensmodel::fault::{AgfFault, TextFault};
use lenstext::text::{Text, decode};
use records::walk::read_lines;
use std::alloc::Global;

/// The book of the glasses of a catalogue in AGF form.
///
/// Refused are a file whose text is at fault, and else the first line with a fault: CD or LD before
/// the first NM; a missing word; a word that is no decimal, or a formula that is no whole number
/// from 0 to 99; a name of more than 40 units; the 4,097th NM. Lines and words are counted from 1.
///
/// `Memory` comes for want of memory alone, and for 2^32 bytes or more behind the mark of a file.
pub fn read_agf(alloc: Global, bytes: &[u8]) -> Result<GlassBook, AgfFault>
    // The glasses, each with its last CD and LD lines, and of equal names the first.
    ensures book { IfOk result (λ b. catalogue bytes.now ≡ Ok b) }
    // Each fault, and only where it stands.
    ensures fault { IfErr result (λ f. f ≢ AgfFault.Memory → catalogue bytes.now ≡ Err f) }
{
    match decode(alloc, bytes) {
        Ok(text) => read_glasses(alloc, &text),
        Err(fault) => Err(text_fault(fault)),
    }
}

/// Why a catalogue is refused whose text is.
fn text_fault(fault: TextFault) -> AgfFault
    ensures text { fault ≢ TextFault.Memory → result ≡ AgfFault.Text fault }
    ensures memory { fault ≡ TextFault.Memory → result ≡ AgfFault.Memory }
{
    match fault {
        TextFault::Memory => AgfFault::Memory,
        TextFault::OddByte => AgfFault::Text(fault),
        TextFault::Surrogate { .. } => AgfFault::Text(fault),
        TextFault::LongLine { .. } => AgfFault::Text(fault),
    }
}

/// The book of the glasses of lines, or the fault of the first line that has one.
fn read_glasses(alloc: Global, text: &Text) -> Result<GlassBook, AgfFault>
    ensures book { IfOk result (λ b. of_lines (each_words text.now) ≡ Ok b) }
    ensures fault { IfErr result
        (λ f. f ≢ AgfFault.Memory → of_lines (each_words text.now) ≡ Err f) }
{
    let mut reader = Reader::new(alloc);
    read_lines(text, &mut reader)?;
    reader.finish()
}

#[cfg(test)]
mod tests {
    use super::*;
    use fixdec::dec::Dec;
    use std::test::Fail;

    fn fault(alloc: Global, bytes: &[u8]) -> Option<AgfFault> {
        match read_agf(alloc, bytes) {
            Ok(_) => None,
            Err(fault) => Some(fault),
        }
    }

    #[test]
    fn one_glass(rt: HostRuntime) -> Result<(), Fail> {
        let book = read_agf(
            rt.alloc(),
            b"CC catalogue for one glass\nNM N-BK7 2 517642.251 1.5168 64.17 0 1\nGC borosilicate crown\nCD 1.03961212 0.00600069867 0.231792344 0.0200179144 1.01046945 103.560653 0 0 0 0\nOD 1 1 2 0 1 1\nLD 0.31 2.5\nIT 0.31 0.37 25\n",
        )?;
        assert_eq!(rt; book.count(), 1);
        let glass = book.at(0);
        assert_eq!(rt; glass.formula, 2);
        assert_eq!(rt;
            glass.c0,
            Dec {
                mant: 103961212,
                exp: -8
            }
        );
        assert_eq!(rt;
            glass.c5,
            Dec {
                mant: 103560653,
                exp: -6
            }
        );
        assert_eq!(rt; glass.low, Some(Dec { mant: 31, exp: -2 }));
        assert_eq!(rt; glass.high, Some(Dec { mant: 25, exp: -1 }));
        Ok(())
    }

    #[test]
    fn last_lines_and_first_names(rt: HostRuntime) -> Result<(), Fail> {
        let book = read_agf(
            rt.alloc(),
            b"NM a 1e0\nCD 1 2\nLD 1 2\nCD 3\nLD 3 4\nNM A 2\nCD 5\nNM b 13\nCD x\n",
        )?;
        assert_eq!(rt; book.count(), 2);
        let glass = book.at(0);
        assert_eq!(rt; glass.formula, 1);
        assert_eq!(rt; glass.c0, Dec { mant: 3, exp: 0 });
        assert_eq!(rt; glass.c1, Dec { mant: 0, exp: 0 });
        assert_eq!(rt; glass.high, Some(Dec { mant: 4, exp: 0 }));
        assert_eq!(rt; book.at(1).formula, 13);
        Ok(())
    }

    #[test]
    fn faults(rt: HostRuntime) -> Result<(), Fail> {
        assert_eq!(rt;
            fault(rt.alloc(), b"CD 1\n"),
            Some(AgfFault::OrphanRecord { line: 1 })
        );
        assert_eq!(rt;
            fault(rt.alloc(), b"\nNM A\n"),
            Some(AgfFault::MissingWord { line: 2 })
        );
        assert_eq!(rt;
            fault(rt.alloc(), b"NM A 1\nLD 1\n"),
            Some(AgfFault::MissingWord { line: 2 })
        );
        assert_eq!(rt;
            fault(rt.alloc(), b"NM A 100\n"),
            Some(AgfFault::BadNumber { line: 1, word: 3 })
        );
        assert_eq!(rt;
            fault(rt.alloc(), b"NM A 1\nCD 1 x\n"),
            Some(AgfFault::BadNumber { line: 2, word: 3 })
        );
        assert_eq!(rt;
            fault(
                rt.alloc(),
                b"NM ABCDEFGHIJKLMNOPQRSTUVWXYZABCDEFGHIJKLMNO 1"
            ),
            Some(AgfFault::LongName { line: 1 })
        );
        assert_eq!(rt;
            fault(rt.alloc(), b"\xFF\xFEN"),
            Some(AgfFault::Text(TextFault::OddByte))
        );
        Ok(())
    }

    #[test]
    fn one_glass_too_many(rt: HostRuntime) -> Result<(), Fail> {
        let mut lines: Vec<u8> = Vec::new(rt.alloc());
        for _ in 0..4096 {
            lines.extend_from_slice(b"NM A 1\n")?;
        }
        assert_eq!(rt; fault(rt.alloc(), lines.as_slice()), None);
        lines.extend_from_slice(b"NM A 1\n")?;
        assert_eq!(rt;
            fault(rt.alloc(), lines.as_slice()),
            Some(AgfFault::TooManyGlasses { line: 4097 })
        );
        Ok(())
    }
}
