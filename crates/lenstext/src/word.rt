//! Where the words of a line stand.

ghost use Rattle.std.specs.Prelude.{◌≡◌, ℕ, ◌+◌, ◌<◌, ◌≤◌, false, None, Some, [], ◌∷◌, length, slice_index, IfSome, MatchOption};
ghost use Rattle.lensmodel.specs.Files.TextLines.{is_space, words};
ghost use Rattle.lenstext.specs.Ranges.{ranges_from};

const SPACE: u16 = 32;

const TAB: u16 = 9;

const RETURN: u16 = 13;

/// The first word of a line, and the units behind it.
pub fn split_word(line: &[u16]) -> Option<(&[u16], &[u16])>
    ensures words { MatchOption result
        (words line.now ≡ [])
        (λ w. words line.now ≡ w.0.now ∷ words w.1.now) }
    ensures filled { IfSome result (λ w. 0 < length w.0.now) }
{
    let (start, end) = next_word(line, 0)?;
    Some((&line[start..end], &line[end..]))
}

/// Start and end of the first word at `from` or later.
pub(crate) fn next_word(line: &[u16], from: usize) -> Option<(usize, usize)>
    requires { from ≤ length line.now }
    ensures first { MatchOption result
        (ranges_from from line.now ≡ [])
        (λ w. ranges_from from line.now ≡ w ∷ ranges_from w.1 line.now) }
    ensures filled { IfSome result (λ w. w.0 < w.1) }
    ensures within { IfSome result (λ w. w.1 ≤ length line.now) }
{
    let start = skip_spaces(line, from);
    if start == line.len() {
        return None;
    }
    Some((start, word_end(line, start)))
}

fn skip_spaces(line: &[u16], from: usize) -> usize
    requires { from ≤ length line.now }
    ensures within { result ≤ length line.now }
    ensures same { ranges_from result line.now ≡ ranges_from from line.now }
    ensures word { result < length line.now → is_space (slice_index line.now result) ≡ false }
{
    for at in from..line.len() {
        if !is_separator(line[at]) {
            return at;
        }
    }
    line.len()
}

fn word_end(line: &[u16], start: usize) -> usize
    requires within { start < length line.now }
    requires word { is_space (slice_index line.now start) ≡ false }
    ensures after { start < result }
    ensures within { result ≤ length line.now }
    ensures first { ranges_from start line.now ≡ (start, result) ∷ ranges_from result line.now }
{
    for at in start + 1..line.len() {
        if is_separator(line[at]) {
            return at;
        }
    }
    line.len()
}

fn is_separator(unit: u16) -> bool
    ensures { result ≡ is_space unit }
{
    unit == SPACE || unit == TAB || unit == RETURN
}
