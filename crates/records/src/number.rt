//! Numbers among the words of a line.

ghost use Rattle.std.specs.Prelude.{◌≡◌, ◌<◌, ◌+◌, ◌↔◌, IsTrue, IsSome, Some, None, length, IfOk, IfErr, OnOk, OnErr};
ghost use Rattle.fixdec.specs.Reading.{decimal_of};
ghost use Rattle.lensmodel.specs.Files.Records.{whole_at, word_at, number_to, whole_word};

use crate::line::Line;
use exactdec::read::read;
use fixdec::dec::Dec;
use fixdec::div::pow10;
use thiserror::Error;

/// A word is no number of the form that its place needs.
#[derive(Clone, Copy, Debug, PartialEq, Eq, Drop, Error)]
#[error("word {word}: bad number")]
pub struct BadNumber {
    /// The word, counted from 1.
    pub word: u32,
}

/// The decimal of a word, where it is one.
pub fn decimal(word: &[u16]) -> Option<Dec>
    ensures { result ≡ decimal_of word.now }
{
    read(word).ok()
}

/// Whether the value of a decimal is a whole number, which may be below 0.
pub fn is_whole(d: &Dec) -> bool
    ensures { IsTrue result ↔ IsSome (whole_at d.now.mant d.now.exp) }
{
    d.exp >= 0
}

/// The value of a decimal, where it is a whole number from 0 to `most`.
pub fn whole(d: &Dec, most: u32) -> Option<u32>
    ensures { result ≡ number_to most (whole_at d.now.mant d.now.exp) }
{
    if d.exp < 0 || d.mant < 0 {
        return None;
    }
    // 10^10 is more than any u32, and zero has exponent 0.
    if d.exp > 9 || d.mant > i128::from(most) {
        return None;
    }
    let value = d.mant * pow10(d.exp as u32);
    if value > i128::from(most) {
        return None;
    }
    Some(value as u32)
}

impl Line<'_> {
    /// The decimal of the word at `k`, from 0, of a line that has it.
    pub fn number(&self, k: usize) -> Result<Dec, BadNumber>
        requires within { k < 64 }
        requires there { k < length self.now }
        ensures number { IfOk result (λ d. decimal_of (word_at k self.now) ≡ Some d) }
        ensures bad { OnErr result (decimal_of (word_at k self.now) ≡ None) }
        ensures place { IfErr result (λ f. f.word ≡ k + 1) }
    {
        decimal(self.known_word(k)).ok_or(bad_number(k))
    }

    /// The whole number from 0 to `most` that is the value of the word at `k`, from 0, of a line
    /// that has it.
    pub fn whole(&self, k: usize, most: u32) -> Result<u32, BadNumber>
        requires within { k < 64 }
        requires there { k < length self.now }
        ensures number { IfOk result (λ n. whole_word most (word_at k self.now) ≡ Some n) }
        ensures bad { OnErr result (whole_word most (word_at k self.now) ≡ None) }
        ensures place { IfErr result (λ f. f.word ≡ k + 1) }
    {
        let d = self.number(k)?;
        whole(&d, most).ok_or(bad_number(k))
    }
}

/// The fault of the word at `k`, from 0.
pub(crate) fn bad_number(k: usize) -> BadNumber
    requires { k < 64 }
    ensures { result.word ≡ k + 1 }
{
    BadNumber { word: k as u32 + 1 }
}

#[cfg(test)]
mod tests {
    use super::*;

    #[test]
    fn words_of_whole_numbers(rt: HostRuntime) {
        let ten = [49, 101, 49];
        let three = [43, 51, 46, 48];
        let half = [46, 53];
        let zero = [45, 48];
        assert_eq!(rt; decimal(&ten).and_then(|d| whole(&d, 99)), Some(10));
        assert_eq!(rt; decimal(&three).and_then(|d| whole(&d, 99)), Some(3));
        assert_eq!(rt; decimal(&half).and_then(|d| whole(&d, 99)), None);
        assert_eq!(rt; decimal(&zero).and_then(|d| whole(&d, 99)), Some(0));
        assert_eq!(rt; decimal(&[45, 49]).and_then(|d| whole(&d, 99)), None);
        assert_eq!(rt; decimal(&[49, 48, 48]).and_then(|d| whole(&d, 99)), None);
        assert_eq!(rt; decimal(&[45, 49]).map(|d| is_whole(&d)), Some(true));
        assert_eq!(rt; decimal(&half).map(|d| is_whole(&d)), Some(false));
        assert_eq!(rt; decimal(&[120]), None);
    }
}
