//! The job of a file.

ghost use Rattle.std.specs.Prelude.{◌≡◌, ◌≢◌, Ok, Err, IfOk, IfErr};
ghost use Rattle.lensmodel.specs.Files.Job.{job, of_lines};
ghost use Rattle.lensmodel.specs.Files.Records.{each_record};
ghost use Rattle.lensmodel.specs.Setup.WellFormed.{IsInRange};

use crate::walk::Reader;
use lensmodel::fault::{JobFault, TextFault};
use lensmodel::job::Job;
use lenstext::text::{Text, decode};
use records::walk::read_lines;
use std::alloc::Global;

/// The job of a file: its settings, and what its lines ask for, each with the pupil in force there.
///
/// Refused are a file whose text is at fault, and else the first line with a fault, in this order:
/// an unknown first word, a wrong count of words, or a second WAVE, RES or WIDTH; a word that is no
/// decimal, or a residual or a count that is no whole number; AIM, FAN or SPOT before any PUPIL; a
/// number that leaves its range; and, after all lines, more than 10,000 rays in all. Lines without a
/// word and lines that begin with `!` or `#` are passed over. Lines are counted from 1.
///
/// `Memory` comes for want of memory alone, and for 2^32 bytes or more behind the mark of a file.
pub fn read_job(alloc: Global, bytes: &[u8]) -> Result<Job, JobFault>
    // The settings, or their defaults, and the asks in the order of their lines.
    ensures value { IfOk result (λ j. job bytes.now ≡ Ok j) }
    // Each number of such a job is in its range, and it has at most 10,000 rays in all.
    ensures sound { IfOk result IsInRange }
    // Each fault, and only where it stands.
    ensures fault { IfErr result (λ f. f ≢ JobFault.Memory → job bytes.now ≡ Err f) }
{
    match decode(alloc, bytes) {
        Ok(text) => read_asks(alloc, &text),
        Err(fault) => Err(text_fault(fault)),
    }
}

/// Why a job is refused whose text is.
fn text_fault(fault: TextFault) -> JobFault
    ensures text { fault ≢ TextFault.Memory → result ≡ JobFault.Text fault }
    ensures memory { fault ≡ TextFault.Memory → result ≡ JobFault.Memory }
{
    match fault {
        TextFault::Memory => JobFault::Memory,
        TextFault::OddByte => JobFault::Text(fault),
        TextFault::Surrogate { .. } => JobFault::Text(fault),
        TextFault::LongLine { .. } => JobFault::Text(fault),
    }
}

/// The job of lines, or the fault of the first line that has one, or of all rays.
fn read_asks(alloc: Global, text: &Text) -> Result<Job, JobFault>
    ensures value { IfOk result (λ j. of_lines (each_record text.now) ≡ Ok j) }
    ensures fault { IfErr result
        (λ f. f ≢ JobFault.Memory → of_lines (each_record text.now) ≡ Err f) }
{
    let mut reader = Reader::new(alloc);
    read_lines(text, &mut reader)?;
    reader.finish()
}

#[cfg(test)]
mod tests {
    use super::*;
    use fixdec::dec::Dec;
    use lensmodel::job::Ask;
    use std::test::Fail;

    fn fault(alloc: Global, bytes: &[u8]) -> Option<JobFault> {
        read_job(alloc, bytes).err()
    }

    #[test]
    fn asks_and_defaults(rt: HostRuntime) -> Result<(), Fail> {
        let job = read_job(
            rt.alloc(),
            b"! a job\nPUPIL 9 4\nFAN 0 0 5\n  RAY 0 0 0 0.75\r\n# further in\nPUPIL -1 3\nAIM .5 0 0 1",
        )?;
        assert_eq!(rt; job.wave, None);
        assert_eq!(rt; job.res, 12);
        assert_eq!(rt; job.width, Dec { mant: 1, exp: -3 });
        let zero = Dec { mant: 0, exp: 0 };
        let asks = job.asks.as_slice();
        assert_eq!(rt; asks.len(), 3);
        assert_eq!(rt;
            asks[0],
            Ask::Fan {
                p: zero,
                q: zero,
                n: 5,
                z: Dec { mant: 9, exp: 0 },
                r: Dec { mant: 4, exp: 0 }
            }
        );
        assert_eq!(rt;
            asks[1],
            Ask::Ray {
                x: zero,
                y: zero,
                p: zero,
                q: Dec { mant: 75, exp: -2 }
            }
        );
        assert_eq!(rt;
            asks[2],
            Ask::Aim {
                p: Dec { mant: 5, exp: -1 },
                q: zero,
                px: zero,
                py: Dec { mant: 1, exp: 0 },
                z: Dec { mant: -1, exp: 0 },
                r: Dec { mant: 3, exp: 0 }
            }
        );
        Ok(())
    }

    #[test]
    fn settings(rt: HostRuntime) -> Result<(), Fail> {
        let job = read_job(
            rt.alloc(),
            b"WIDTH 1e3\nFIRST 1 0\nRES 4.0\nWAVE 0.5\nSEIDEL 1 0 0 0.1\n",
        )?;
        assert_eq!(rt; job.wave, Some(Dec { mant: 5, exp: -1 }));
        assert_eq!(rt; job.res, 4);
        assert_eq!(rt; job.width, Dec { mant: 1, exp: 3 });
        assert_eq!(rt; job.asks.as_slice().len(), 2);
        Ok(())
    }

    #[test]
    fn faults_of_one_line_in_their_order(rt: HostRuntime) {
        let of = |bytes| fault(rt.alloc(), bytes);
        assert_eq!(rt; of(b"WAVE 0.5\nWAVE x\n"), Some(JobFault::Word { line: 2 }));
        assert_eq!(rt; of(b"\nRAY 0 0 0 x y\n"), Some(JobFault::Word { line: 2 }));
        assert_eq!(rt; of(b"GRID 0 0 1\n"), Some(JobFault::Word { line: 1 }));
        assert_eq!(rt; of(b"RES 4.5\n"), Some(JobFault::BadNumber { line: 1 }));
        assert_eq!(rt; of(b"SPOT 0 0 .5\n"), Some(JobFault::BadNumber { line: 1 }));
        assert_eq!(rt; of(b"SPOT 0 0 -1\n"), Some(JobFault::Missing { line: 1 }));
        assert_eq!(rt;
            of(b"AIM 0 0 0 1\nPUPIL 0 3\n"),
            Some(JobFault::Missing { line: 1 })
        );
        assert_eq!(rt; of(b"PUPIL 0 -1\n"), Some(JobFault::Range { line: 1 }));
        assert_eq!(rt; of(b"\xFF\xFER"), Some(JobFault::Text(TextFault::OddByte)));
    }

    #[test]
    fn ranges(rt: HostRuntime) {
        let of = |bytes| fault(rt.alloc(), bytes);
        let range = Some(JobFault::Range { line: 1 });
        assert_eq!(rt; of(b"RES 15\n"), range);
        assert_eq!(rt; of(b"RES -1\n"), range);
        assert_eq!(rt; of(b"WAVE 0\n"), range);
        assert_eq!(rt; of(b"WIDTH 0\n"), range);
        assert_eq!(rt; of(b"WIDTH 1000.0000001\n"), range);
        assert_eq!(rt; of(b"WIDTH 1e-60\n"), None);
        assert_eq!(rt;
            of(b"PUPIL 0 3\nFAN 0 0 1001\n"),
            Some(JobFault::Range { line: 2 })
        );
        assert_eq!(rt;
            of(b"PUPIL 0 3\nSPOT 0 0 61\n"),
            Some(JobFault::Range { line: 2 })
        );
    }

    #[test]
    fn one_ray_too_many(rt: HostRuntime) {
        let of = |bytes| fault(rt.alloc(), bytes);
        assert_eq!(rt;
            of(b"PUPIL 0 3\nSPOT 0 0 60\n"),
            Some(JobFault::TooManyRays)
        );
        // 99^2 + 2 (2 * 49 + 1) + 1 are 10,000.
        assert_eq!(rt;
            of(b"PUPIL 0 3\nSPOT 0 0 49\nFAN 0 0 49\nRAY 0 0 0 0\n"),
            None
        );
        assert_eq!(rt;
            of(b"PUPIL 0 3\nSPOT 0 0 49\nFAN 0 0 49\nRAY 0 0 0 0\nAIM 0 0 0 0\n"),
            Some(JobFault::TooManyRays)
        );
        assert_eq!(rt;
            of(b"PUPIL 0 3\nSPOT 0 0 60\nRAY 0 0\n"),
            Some(JobFault::Word { line: 3 })
        );
    }
}
