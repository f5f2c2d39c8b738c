//! One line: where it ends, and what may be wrong with it.

ghost use Rattle.std.specs.Prelude.{ℕ, ◌≡◌, ◌+◌, ◌<◌, ◌≤◌, ◌||◌, ◌∷◌, ◌≢◌, false, None, Some, drop, get_or, length, slice_range, IfErr, OnOk};
ghost use Rattle.std.specs.List.{list_any};
ghost use Rattle.lensmodel.specs.Files.TextLines.{has_lone, is_high, is_low, line_fault, lines};

use lensmodel::fault::TextFault;

/// The most units of a line.
pub const LONGEST: usize = 4096;

const LINE_FEED: u16 = 10;

/// How many units are looked at in one step.
const STEP: usize = 16;

/// Whether there is a line feed. It looks at each unit alone, so that all of a step are looked at at
/// once.
fn has_line_feed(units: &[u16]) -> bool
    ensures { result ≡ false → (k : ℕ) → k < length units.now → get_or units.now k 0 ≢ 10 }
{
    let mut found = false;
    for unit in units {
        found |= *unit == LINE_FEED;
    }
    found
}

/// Up to where, from `start` on, there is surely no line feed: some whole steps.
fn without_line_feed(units: &[u16], start: usize) -> usize
    requires { start ≤ length units.now }
    ensures after { start ≤ result }
    ensures within { result ≤ length units.now }
    ensures none { (k : ℕ) → start ≤ k → k < result → get_or units.now k 0 ≢ 10 }
{
    let mut at = start;
    while units.len() - at >= STEP && !has_line_feed(&units[at..at + STEP]) {
        at += STEP;
    }
    at
}

/// Where the line that begins at `start` ends.
pub fn line_end(units: &[u16], start: usize) -> usize
    requires { start < length units.now }
    ensures after { start ≤ result }
    ensures within { result ≤ length units.now }
    ensures line { lines (drop start units.now)
        ≡ slice_range units.now start result ∷ lines (drop (result + 1) units.now) }
{
    for at in without_line_feed(units, start)..units.len() {
        if units[at] == LINE_FEED {
            return at;
        }
    }
    units.len()
}

/// Refuses a line with a lone surrogate, and else one of more than 4,096 units.
pub fn check_line(line: &[u16], number: u32) -> Result<(), TextFault>
    ensures sound { OnOk result (line_fault number line.now ≡ None) }
    ensures fault { IfErr result (λ f. line_fault number line.now ≡ Some f) }
{
    if has_surrogate(line) && has_lone_surrogate(line) {
        return Err(TextFault::Surrogate { line: number });
    }
    if line.len() > LONGEST {
        return Err(TextFault::LongLine { line: number });
    }
    Ok(())
}

/// Whether there is a surrogate. It looks at each unit alone, so that many are looked at in one
/// step, where most lines have none.
fn has_surrogate(line: &[u16]) -> bool
    ensures { result ≡ false → has_lone false line.now ≡ false }
{
    let mut found = false;
    for unit in line {
        found |= is_high_surrogate(*unit) | is_low_surrogate(*unit);
    }
    found
}

fn has_lone_surrogate(line: &[u16]) -> bool
    ensures { result ≡ has_lone false line.now }
{
    let mut waiting = false;
    for unit in line {
        let low = is_low_surrogate(*unit);
        if waiting != low {
            return true;
        }
        waiting = is_high_surrogate(*unit);
    }
    waiting
}

fn is_high_surrogate(unit: u16) -> bool
    ensures { result ≡ is_high unit }
{
    unit >= 0xD800 && unit <= 0xDBFF
}

fn is_low_surrogate(unit: u16) -> bool
    ensures { result ≡ is_low unit }
{
    unit >= 0xDC00 && unit <= 0xDFFF
}
