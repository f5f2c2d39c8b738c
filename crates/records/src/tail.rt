//! The words of a line, taken one after another.

ghost use Rattle.std.specs.Prelude.{◌≡◌, ◌<◌, ◌+◌, false, true, drop, IfOk, IfErr, OnOk, OnErr, MatchOption};
ghost use Rattle.lensmodel.specs.Files.Records.{decimal_at, word_at};
ghost use Rattle.lensmodel.specs.Files.TextLines.{words};
ghost use Rattle.records.specs.Numbers.{is_bad};
ghost use Rattle.records.specs.Words.{has_word};

use crate::number::{BadNumber, bad_number, decimal};
use fixdec::dec::Dec;
use lenstext::word::split_word;
use std::marker::Model;

/// The words of a line behind those that were taken.
#[derive(Drop)]
pub struct Tail<'a> {
    units: &'a [u16],
}

impl<'a> Model for Tail<'a> {
    ghost use Rattle.lensmodel.specs.Files.Records.{Words};
    ghost use Rattle.lensmodel.specs.Files.TextLines.{words};

    ghost Value = { Words };

    ghost view = { λ t. words t.units.now };
}

impl<'a> Tail<'a> {
    /// All words among the units.
    pub fn new(units: &'a [u16]) -> Tail<'a>
        ensures { result ≡ words units.now }
    {
        Tail { units }
    }

    /// Takes the next word.
    pub fn take_word(&mut self) -> Option<&'a [u16]>
        ensures word { MatchOption result
            (has_word 0 self.old ≡ false)
            (λ w. (has_word 0 self.old ≡ true) × (w.now ≡ word_at 0 self.old)) }
        ensures left { self.new ≡ drop 1 self.old }
    {
        let (word, behind) = split_word(self.units)?;
        self.units = behind;
        Some(word)
    }

    /// Takes the next word, which is the one at `k` of its line, from 0, and gives its decimal. That
    /// is 0 where no word is left.
    pub fn take_number_or_0(&mut self, k: usize) -> Result<Dec, BadNumber>
        requires { k < 64 }
        ensures number { IfOk result (λ d. d ≡ decimal_at 0 self.old) }
        ensures left { self.new ≡ drop 1 self.old }
        ensures good { OnOk result (is_bad self.old ≡ false) }
        ensures bad { OnErr result (is_bad self.old ≡ true) }
        ensures place { IfErr result (λ f. f.word ≡ k + 1) }
    {
        match self.take_word() {
            Some(word) => decimal(word).ok_or(bad_number(k)),
            None => Ok(Dec::default()),
        }
    }
}
