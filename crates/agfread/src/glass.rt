//! The glass of a record.

ghost use Rattle.std.specs.Prelude.{◌≡◌, ◌≤◌, ◌<◌, [], Some, None, drop, length, IfOk, IfErr, OnOk};
ghost use Rattle.lensmodel.specs.Files.Catalogue.{glass_of, NM_fault, CD_fault, LD_fault};
ghost use Rattle.lensmodel.specs.Files.Records.{decimal_at};
ghost use Rattle.lensmodel.specs.Setup.Values.{zero_decimal};
ghost use Rattle.agfread.specs.Records.{word_fault, used_CD_fault, with_CD, with_coefficients, with_bounds};

use arrayvec::ArrayVec;
use fixdec::dec::Dec;
use lensmodel::fault::AgfFault;
use lensmodel::glass::Glass;
use lensmodel::name::Name;
use records::line::Line;
use records::number::BadNumber;
use records::tail::Tail;

/// The glass that an NM line begins, the one after `seen` others.
pub fn begun(line: &Line<'_>, at: u32, seen: u32) -> Result<Glass, AgfFault>
    requires { 2 < length line.now }
    ensures glass { IfOk result (λ g. g ≡ glass_of line.now []) }
    ensures sound { IfOk result (λ g. NM_fault at seen line.now ≡ None) }
    ensures fault { IfErr result (λ f. NM_fault at seen line.now ≡ Some f) }
{
    let name = line.known_word(1);
    let formula = line.whole(2, 99).map_err(|bad| in_line(at, bad))?;
    if name.len() > 40 {
        return Err(AgfFault::LongName { line: at });
    }
    if seen >= 4096 {
        return Err(AgfFault::TooManyGlasses { line: at });
    }
    Ok(bare(name, formula))
}

/// The fault of a bad number in the line of a number.
fn in_line(at: u32, bad: BadNumber) -> AgfFault
    ensures { result ≡ AgfFault.BadNumber at bad.word }
{
    AgfFault::BadNumber {
        line: at,
        word: bad.word,
    }
}

/// The coefficient that the next word gives, the one at `k` of its line, from 0. It is 0 where no
/// word is left.
fn coefficient(words: &mut Tail<'_>, at: u32, k: usize) -> Result<Dec, AgfFault>
    requires { k < 64 }
    ensures value { IfOk result (λ d. d ≡ decimal_at 0 words.old) }
    ensures left { words.new ≡ drop 1 words.old }
    ensures sound { OnOk result (word_fault at k words.old ≡ None) }
    ensures fault { IfErr result (λ f. word_fault at k words.old ≡ Some f) }
{
    words.take_number_or_0(k).map_err(|bad| in_line(at, bad))
}

/// A glass without coefficients and bounds.
fn bare(name: &[u16], formula: u32) -> Glass
    requires { length name.now ≤ 40 }
    ensures { result ≡ record {
      name = record { items = name.now };
      formula = formula;
      c0 = zero_decimal;
      c1 = zero_decimal;
      c2 = zero_decimal;
      c3 = zero_decimal;
      c4 = zero_decimal;
      c5 = zero_decimal;
      low = None;
      high = None;
    } }
{
    let mut units: Name = ArrayVec::new();
    let _ = units.try_extend_from_slice(name);
    let zero = Dec::default();
    Glass {
        name: units,
        formula,
        c0: zero,
        c1: zero,
        c2: zero,
        c3: zero,
        c4: zero,
        c5: zero,
        low: None,
        high: None,
    }
}

/// Puts the coefficients of a CD line into a glass.
fn set_coefficients(glass: &mut Glass, line: &Line<'_>, at: u32) -> Result<(), AgfFault>
    ensures glass { OnOk result (glass.new ≡ with_coefficients line.now glass.old) }
    ensures sound { OnOk result (CD_fault at line.now ≡ None) }
    ensures fault { IfErr result (λ f. CD_fault at line.now ≡ Some f) }
{
    let mut words = line.behind_first();
    let c0 = coefficient(&mut words, at, 1)?;
    let c1 = coefficient(&mut words, at, 2)?;
    let c2 = coefficient(&mut words, at, 3)?;
    let c3 = coefficient(&mut words, at, 4)?;
    let c4 = coefficient(&mut words, at, 5)?;
    let c5 = coefficient(&mut words, at, 6)?;
    glass.c0 = c0;
    glass.c1 = c1;
    glass.c2 = c2;
    glass.c3 = c3;
    glass.c4 = c4;
    glass.c5 = c5;
    Ok(())
}

/// Puts the coefficients of a CD line into a glass, where its formula uses them.
pub fn set_used_coefficients(glass: &mut Glass, line: &Line<'_>, at: u32) -> Result<(), AgfFault>
    ensures glass { OnOk result (glass.new ≡ with_CD line.now glass.old) }
    ensures sound { OnOk result (used_CD_fault at glass.old line.now ≡ None) }
    ensures fault { IfErr result (λ f. used_CD_fault at glass.old line.now ≡ Some f) }
{
    match glass.formula {
        1 | 2 => set_coefficients(glass, line, at),
        _ => Ok(()),
    }
}

/// Puts the bounds of an LD line into a glass.
pub fn set_bounds(glass: &mut Glass, line: &Line<'_>, at: u32) -> Result<(), AgfFault>
    requires { 2 < length line.now }
    ensures glass { OnOk result (glass.new ≡ with_bounds line.now glass.old) }
    ensures sound { OnOk result (LD_fault at line.now ≡ None) }
    ensures fault { IfErr result (λ f. LD_fault at line.now ≡ Some f) }
{
    let low = line.number(1).map_err(|bad| in_line(at, bad))?;
    let high = line.number(2).map_err(|bad| in_line(at, bad))?;
    glass.low = Some(low);
    glass.high = Some(high);
    Ok(())
}
