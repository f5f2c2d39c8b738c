//! A line and its words.

ghost use Rattle.std.specs.Prelude.{◌≡◌, ◌≢◌, ◌<◌, ◌-◌, ◌↔◌, IsTrue, false, true, [], drop, length, MatchOption};
ghost use Rattle.lensmodel.specs.Files.Records.{word_at, has_tag as begins_with, is_remark as has_mark};
ghost use Rattle.lensmodel.specs.Files.TextLines.{words};
ghost use Rattle.records.specs.Remarks.{line_words};
ghost use Rattle.records.specs.Words.{has_word};

use crate::tail::Tail;
use crate::word::is_word;
use lenstext::word::split_word;
use std::marker::Model;

/// The words of a line. The first is found once. The others are looked for when one of them is asked
/// for, so that no more of a line is looked at than its record needs.
#[derive(Drop)]
pub struct Line<'a> {
    units: &'a [u16],
    /// The first word, or no units where there is none.
    tag: &'a [u16],
}

impl<'a> Model for Line<'a> {
    ghost use Rattle.lensmodel.specs.Files.Records.{Words};
    ghost use Rattle.lensmodel.specs.Files.TextLines.{words};
    ghost use Rattle.records.specs.Words.{IsFirst};

    ghost Value = { Words };

    ghost view = { λ l. words l.units.now };

    ghost invariant = { λ l. IsFirst l.tag.now (words l.units.now) };
}

const EXCLAMATION_MARK: u16 = 33;

const NUMBER_SIGN: u16 = 35;

/// Whether a line is a remark: its first unit is `!` or `#`.
fn is_remark(units: &[u16]) -> bool
    ensures { result ≡ has_mark units.now }
{
    match units {
        [EXCLAMATION_MARK | NUMBER_SIGN, ..] => true,
        _ => false,
    }
}

/// The word at `k`, from 0, of the units of a line.
fn nth_word(units: &[u16], k: usize) -> Option<&[u16]>
    ensures { MatchOption result
        (has_word k (words units.now) ≡ false)
        (λ w. (has_word k (words units.now) ≡ true) × (w.now ≡ word_at k (words units.now))) }
{
    let mut rest = units;
    for _ in 0..k {
        let (_, behind) = split_word(rest)?;
        rest = behind;
    }
    let (word, _) = split_word(rest)?;
    Some(word)
}

impl<'a> Line<'a> {
    /// The line of the units. A remark has no words, where the file has remarks.
    pub fn new(units: &'a [u16], remarks: bool) -> Line<'a>
        ensures { result ≡ line_words remarks units.now }
    {
        if remarks && is_remark(units) {
            return Line {
                units: &[],
                tag: &[],
            };
        }
        match split_word(units) {
            Some((tag, _)) => Line { units, tag },
            None => Line { units, tag: &[] },
        }
    }

    /// Whether the line has no word.
    pub fn is_empty(&self) -> bool
        ensures { IsTrue result ↔ (self.now ≡ []) }
    {
        self.tag.is_empty()
    }

    /// Whether fewer words than `wanted` stand behind the line's first.
    pub fn lacks(&self, wanted: usize) -> bool
        ensures { IsTrue result ↔ length self.now - 1 < wanted }
    {
        wanted > 0 && !self.has_word(wanted)
    }

    /// Whether not `wanted` words, which are fewer than 63, stand behind the line's first.
    pub fn differs(&self, wanted: usize) -> bool
        requires { wanted < 63 }
        ensures { IsTrue result ↔ length self.now - 1 ≢ wanted }
    {
        self.lacks(wanted) || self.has_word(wanted + 1)
    }

    /// The word at `k`, from 0.
    pub fn word(&self, k: usize) -> Option<&'a [u16]>
        ensures { MatchOption result
            (has_word k self.now ≡ false)
            (λ w. (has_word k self.now ≡ true) × (w.now ≡ word_at k self.now)) }
    {
        if k == 0 {
            return self.first_word();
        }
        nth_word(self.units, k)
    }

    /// The word at `k`, from 0, of a line that has it.
    pub fn known_word(&self, k: usize) -> &'a [u16]
        requires { k < length self.now }
        ensures { result.now ≡ word_at k self.now }
    {
        nth_word(self.units, k).unwrap()
    }

    /// Whether the line has a word at `k`, from 0.
    fn has_word(&self, k: usize) -> bool
        ensures { IsTrue result ↔ k < length self.now }
    {
        nth_word(self.units, k).is_some()
    }

    /// The words behind the line's first.
    pub fn behind_first(&self) -> Tail<'a>
        ensures { result ≡ drop 1 self.now }
    {
        let mut words = Tail::new(self.units);
        let _first = words.take_word();
        words
    }

    /// The first word, where the line has one.
    fn first_word(&self) -> Option<&'a [u16]>
        ensures { MatchOption result
            (has_word 0 self.now ≡ false)
            (λ w. (has_word 0 self.now ≡ true) × (w.now ≡ word_at 0 self.now)) }
    {
        if self.tag.is_empty() {
            return None;
        }
        Some(self.tag)
    }

    /// Whether the line begins with the word of a tag.
    pub fn has_tag(&self, tag: &[u8]) -> bool
        ensures { result ≡ begins_with tag.now self.now }
    {
        match self.first_word() {
            Some(word) => is_word(word, tag),
            None => false,
        }
    }
}
