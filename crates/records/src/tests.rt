//! A walk along lines, with remarks among them.

ghost use Rattle.std.specs.Prelude.{true, None};

use crate::line::Line;
use crate::walk::{LineReader, read_lines};
use lenstext::text::decode;
use std::test::Fail;

/// The sum of numbers from 0 to 9, the first of each line that has a word.
#[derive(Drop)]
struct Sum {
    total: u64,
}

/// No number from 0 to 9.
#[derive(Clone, Copy, Debug, PartialEq, Eq)]
struct NoDigit {
    line: u32,
    word: u32,
}

impl LineReader for Sum {
    type Fault = NoDigit;

    const REMARKS: bool = true;

    ghost REMARKS = { true };

    ghost offence = { λ _ _ _ _. None };

    ghost IsOfLines = { λ _. ⊥ };

    ghost IsAt = { λ _ _. Unit {0} };

    fn take(&mut self, number: u32, line: &Line<'_>) -> Result<(), NoDigit> {
        if line.is_empty() {
            return Ok(());
        }
        let digit = line.whole(0, 9).map_err(|bad| NoDigit {
            line: number,
            word: bad.word,
        })?;
        self.total = self.total.saturating_add(u64::from(digit));
        Ok(())
    }
}

#[test]
fn remarks_and_empty_lines_pass(rt: HostRuntime) -> Result<(), Fail> {
    let text = decode(rt.alloc(), b"! 1\n# 2\n\n 3 x\n \t\n40e-1\n")?;
    let mut sum = Sum { total: 0 };
    assert_eq!(rt; read_lines(&text, &mut sum), Ok(()));
    assert_eq!(rt; sum.total, 7);
    Ok(())
}

#[test]
fn the_first_offence_stops(rt: HostRuntime) -> Result<(), Fail> {
    let text = decode(rt.alloc(), b"5\n ! 6\n10\n")?;
    let mut sum = Sum { total: 0 };
    assert_eq!(rt;
        read_lines(&text, &mut sum),
        Err(NoDigit { line: 2, word: 1 })
    );
    assert_eq!(rt; sum.total, 5);
    Ok(())
}
