//! The box of a file.

ghost use Rattle.std.specs.Prelude.{◌≡◌, ◌≢◌, ◌-◌, Ok, Err, IfOk, IfErr};
ghost use Rattle.lensmodel.specs.Files.Records.{each_record};
ghost use Rattle.lensmodel.specs.Files.Tolerances.{tolerance_box, of_lines};
ghost use Rattle.lensmodel.specs.Setup.WellFormed.{IsBox};

use crate::walk::Reader;
use lensmodel::fault::{TextFault, TolFault};
use lensmodel::tolerance::TolBox;
use lenstext::text::{Text, decode};
use records::walk::read_lines;
use std::alloc::Global;

/// The tolerance box of a lens with `surfaces` surfaces. The symbol of a tolerance is its place in
/// the list.
///
/// Refused are a file whose text is at fault, and else the first line with a fault, in this order:
/// other words than `TOL kind surface delta`; a surface that is no whole number from 0 to 65,535 or
/// a deviation that is no decimal; a deviation below 0; a surface that the lens doesn't have for
/// the kind; a second tolerance of one kind on one surface; the 33rd tolerance. Lines without a word
/// and lines that begin with `!` or `#` are passed over. Lines are counted from 1.
///
/// `Memory` comes for want of memory alone, and for 2^32 bytes or more behind the mark of a file.
pub fn read_tol(alloc: Global, bytes: &[u8], surfaces: u32) -> Result<TolBox, TolFault>
    // The tolerances in the order of their lines.
    ensures value { IfOk result (λ b. tolerance_box bytes.now (surfaces - 1) ≡ Ok b) }
    // They make a box of the lens: at most 32, none below 0, each at a value that the lens has, no
    // two at one value.
    ensures sound { IfOk result (λ b. IsBox (surfaces - 1) b.list.items) }
    // Each fault, and only where it stands.
    ensures fault { IfErr result
        (λ f. f ≢ TolFault.Memory → tolerance_box bytes.now (surfaces - 1) ≡ Err f) }
{
    match decode(alloc, bytes) {
        Ok(text) => read_tolerances(&text, surfaces.saturating_sub(1)),
        Err(fault) => Err(text_fault(fault)),
    }
}

/// Why a box is refused whose text is.
fn text_fault(fault: TextFault) -> TolFault
    ensures text { fault ≢ TextFault.Memory → result ≡ TolFault.Text fault }
    ensures memory { fault ≡ TextFault.Memory → result ≡ TolFault.Memory }
{
    match fault {
        TextFault::Memory => TolFault::Memory,
        TextFault::OddByte => TolFault::Text(fault),
        TextFault::Surrogate { .. } => TolFault::Text(fault),
        TextFault::LongLine { .. } => TolFault::Text(fault),
    }
}

/// The tolerances of lines, or the fault of the first line that has one.
fn read_tolerances(text: &Text, image: u32) -> Result<TolBox, TolFault>
    ensures value { IfOk result (λ b. of_lines image (each_record text.now) ≡ Ok b) }
    ensures fault { IfErr result (λ f. of_lines image (each_record text.now) ≡ Err f) }
{
    let mut reader = Reader::new(image);
    read_lines(text, &mut reader)?;
    Ok(reader.finish())
}

#[cfg(test)]
mod tests {
    use super::*;
    use fixdec::dec::Dec;
    use lensmodel::tolerance::{Tol, TolKind};
    use std::test::Fail;

    fn fault(alloc: Global, bytes: &[u8], surfaces: u32) -> Option<TolFault> {
        read_tol(alloc, bytes, surfaces).err()
    }

    #[test]
    fn one_box(rt: HostRuntime) -> Result<(), Fail> {
        let tolerances = read_tol(
            rt.alloc(),
            b"! a box\nTOL CURV 2 0.00002\n\n# index\n  TOL INDX 0.0 5E-4\r\nTOL THIC 1e0 .01",
            3,
        )?;
        let list = tolerances.list.as_slice();
        assert_eq!(rt; list.len(), 3);
        assert_eq!(rt;
            list[0],
            Tol {
                kind: TolKind::Curv,
                surface: 2,
                delta: Dec { mant: 2, exp: -5 }
            }
        );
        assert_eq!(rt; list[1].kind, TolKind::Indx);
        assert_eq!(rt; list[1].surface, 0);
        assert_eq!(rt; list[2].kind, TolKind::Thic);
        assert_eq!(rt; list[2].surface, 1);
        Ok(())
    }

    #[test]
    fn faults_in_their_order(rt: HostRuntime) {
        let of = |bytes| fault(rt.alloc(), bytes, 3);
        assert_eq!(rt; of(b"TOL CURV 1 0\n"), None);
        assert_eq!(rt; of(b"TOL CONI 1 x\n"), Some(TolFault::Word { line: 1 }));
        assert_eq!(rt; of(b"TOL CURV 1 0 0\n"), Some(TolFault::Word { line: 1 }));
        assert_eq!(rt;
            of(b"\nTOL CURV x 0\n"),
            Some(TolFault::BadNumber { line: 2 })
        );
        assert_eq!(rt;
            of(b"TOL CURV 65536 -1\n"),
            Some(TolFault::BadNumber { line: 1 })
        );
        assert_eq!(rt;
            of(b"TOL CURV 9 -1\n"),
            Some(TolFault::Negative { line: 1 })
        );
        assert_eq!(rt;
            of(b"TOL CURV 9 0\n"),
            Some(TolFault::NoSurface { line: 1 })
        );
        assert_eq!(rt;
            of(b"TOL THIC 2 0\n"),
            Some(TolFault::NoSurface { line: 1 })
        );
        assert_eq!(rt;
            of(b"TOL INDX 0 0\nTOL CURV 0 0\n"),
            Some(TolFault::NoSurface { line: 2 })
        );
        assert_eq!(rt;
            of(b"TOL CURV 1 0\nTOL CURV 1 0\n"),
            Some(TolFault::Twice { line: 2 })
        );
        assert_eq!(rt; of(b"TOL\n\xFF\n"), Some(TolFault::Word { line: 1 }));
        assert_eq!(rt; of(b"\xFF\xFET"), Some(TolFault::Text(TextFault::OddByte)));
    }

    #[test]
    fn one_tolerance_too_many(rt: HostRuntime) -> Result<(), Fail> {
        let mut lines: String = String::new(rt.alloc());
        for surface in 1..=32 {
            write!(lines, "TOL CURV {surface} 0\n")?;
        }
        assert_eq!(rt; fault(rt.alloc(), lines.as_bytes(), 40), None);
        lines.push_str("TOL CURV 33 0\n")?;
        assert_eq!(rt;
            fault(rt.alloc(), lines.as_bytes(), 40),
            Some(TolFault::TooMany { line: 33 })
        );
        Ok(())
    }
}
