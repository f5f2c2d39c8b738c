//! The numbers of a line.

ghost use Rattle.std.specs.Prelude.{◌≡◌, ◌<◌, ◌+◌, pos, length, drop, true, false, None, Some, IfOk, IfErr, OnOk, OnErr, MatchOption};
ghost use Rattle.fixdec.specs.Reading.{decimal_of};
ghost use Rattle.lensmodel.specs.Files.JobFaults.{bad_decimals, has_bad, is_within};
ghost use Rattle.lensmodel.specs.Files.Records.{decimal_at, whole_at, word_at};
ghost use Rattle.jobtext.specs.Records.{is_between};

use fixdec::dec::Dec;
use lensmodel::fault::JobFault;
use records::line::Line;
use records::number::whole;

/// The decimal of the word at `k`, from 0, of a line that has it.
pub fn decimal(line: &Line<'_>, at: u32, k: usize) -> Result<Dec, JobFault>
    requires within { k < 64 }
    requires there { k < length line.now }
    ensures value { IfOk result (λ d. decimal_of (word_at k line.now) ≡ Some d) }
    // Of the words from this one on one is bad where this one is, or else one behind it.
    ensures good { OnOk result (has_bad (drop k line.now) ≡ has_bad (drop (k + 1) line.now)) }
    ensures bad { OnErr result (has_bad (drop k line.now) ≡ true) }
    ensures none { OnErr result (decimal_of (word_at k line.now) ≡ None) }
    ensures fault { IfErr result (λ f. f ≡ JobFault.BadNumber at) }
{
    line.number(k).map_err(|_| JobFault::BadNumber { line: at })
}

/// The decimal of the word behind the first.
#[tactic(auto, using(crate::proofs::Numbers::none_bad))]
pub fn one(line: &Line<'_>, at: u32) -> Result<Dec, JobFault>
    requires { length line.now ≡ 2 }
    ensures value { IfOk result (λ d. d ≡ decimal_at 1 line.now) }
    ensures sound { OnOk result (bad_decimals at line.now ≡ None) }
    ensures fault { IfErr result (λ f. bad_decimals at line.now ≡ Some f) }
{
    decimal(line, at, 1)
}

/// The decimals of the two words behind the first.
#[tactic(auto, using(crate::proofs::Numbers::none_bad))]
pub fn two(line: &Line<'_>, at: u32) -> Result<(Dec, Dec), JobFault>
    requires { length line.now ≡ 3 }
    ensures first { IfOk result (λ d. d.0 ≡ decimal_at 1 line.now) }
    ensures second { IfOk result (λ d. d.1 ≡ decimal_at 2 line.now) }
    ensures sound { OnOk result (bad_decimals at line.now ≡ None) }
    ensures fault { IfErr result (λ f. bad_decimals at line.now ≡ Some f) }
{
    let first = decimal(line, at, 1)?;
    let second = decimal(line, at, 2)?;
    Ok((first, second))
}

/// The decimals of the three words behind the first.
#[tactic(auto, using(crate::proofs::Numbers::none_bad))]
pub fn three(line: &Line<'_>, at: u32) -> Result<(Dec, Dec, Dec), JobFault>
    requires { length line.now ≡ 4 }
    ensures first { IfOk result (λ d. d.0 ≡ decimal_at 1 line.now) }
    ensures second { IfOk result (λ d. d.1 ≡ decimal_at 2 line.now) }
    ensures third { IfOk result (λ d. decimal_of (word_at 3 line.now) ≡ Some d.2) }
    ensures sound { OnOk result (bad_decimals at line.now ≡ None) }
    ensures fault { IfErr result (λ f. bad_decimals at line.now ≡ Some f) }
{
    let first = decimal(line, at, 1)?;
    let second = decimal(line, at, 2)?;
    let third = decimal(line, at, 3)?;
    Ok((first, second, third))
}

/// The decimals of the four words behind the first.
#[tactic(auto, using(crate::proofs::Numbers::none_bad))]
pub fn four(line: &Line<'_>, at: u32) -> Result<(Dec, Dec, Dec, Dec), JobFault>
    requires { length line.now ≡ 5 }
    ensures first { IfOk result (λ d. d.0 ≡ decimal_at 1 line.now) }
    ensures second { IfOk result (λ d. d.1 ≡ decimal_at 2 line.now) }
    ensures third { IfOk result (λ d. d.2 ≡ decimal_at 3 line.now) }
    ensures fourth { IfOk result (λ d. d.3 ≡ decimal_at 4 line.now) }
    ensures sound { OnOk result (bad_decimals at line.now ≡ None) }
    ensures fault { IfErr result (λ f. bad_decimals at line.now ≡ Some f) }
{
    let first = decimal(line, at, 1)?;
    let second = decimal(line, at, 2)?;
    let third = decimal(line, at, 3)?;
    let fourth = decimal(line, at, 4)?;
    Ok((first, second, third, fourth))
}

/// The value of a decimal, where it is a whole number from `least` to `most`.
pub fn whole_between(d: &Dec, least: u32, most: u32) -> Option<u32>
    ensures { MatchOption result
        (is_within (is_between least most) (whole_at d.now.mant d.now.exp) ≡ false)
        (λ n. (is_within (is_between least most) (whole_at d.now.mant d.now.exp) ≡ true)
        × (whole_at d.now.mant d.now.exp ≡ Some (pos n))) }
{
    let n = whole(d, most)?;
    if n < least {
        return None;
    }
    Some(n)
}
