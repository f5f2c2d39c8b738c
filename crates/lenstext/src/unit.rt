//! The 16-bit units of a file.

ghost use Rattle.std.specs.Prelude.{◌≡◌, ◌≢◌, ◌+◌, ◌^◌, ◌<◌, ◌≤◌, true, false, length, IfOk, IfErr, OnOk, IsTrue, if◌then◌else◌};
ghost use Rattle.lensmodel.specs.Files.TextLines.{units, is_odd, is_wide, pairs};

use lensmodel::fault::TextFault;
use std::alloc::{AllocError, Global};

/// The units of bytes. `OddByte` where the bytes are UTF-16 and a half unit is left over, else
/// `Memory` for want of it and where 2^32 bytes or more stand behind the mark.
pub fn read_units(alloc: Global, bytes: &[u8]) -> Result<Vec<u16>, TextFault>
    ensures units { IfOk result (λ us. us.items ≡ units bytes.now) }
    ensures few { OnOk result (length (units bytes.now) < 2 ^ 32) }
    ensures even { OnOk result (is_odd bytes.now ≡ false) }
    ensures odd { IfErr result (λ f. f ≢ TextFault.Memory
        → (f ≡ TextFault.OddByte) × (is_odd bytes.now ≡ true)) }
{
    let (body, wide) = split_mark(bytes);
    if wide && body.len() % 2 == 1 {
        return Err(TextFault::OddByte);
    }
    if body.len() > u32::MAX as usize {
        return Err(TextFault::Memory);
    }
    let read = if wide {
        join_pairs(alloc, body)
    } else {
        widen(alloc, body)
    };
    read.map_err(|_| TextFault::Memory)
}

/// What stands behind the mark that bytes begin with, and whether that is UTF-16.
fn split_mark(bytes: &[u8]) -> (&[u8], bool)
    ensures wide { result.1 ≡ is_wide bytes.now }
    ensures units { (if result.1 then pairs result.0.now else result.0.now) ≡ units bytes.now }
    ensures inside { length result.0.now ≤ length bytes.now }
    ensures length { IsTrue result.1 → length bytes.now ≡ length result.0.now + 2 }
{
    match bytes {
        [0xFF, 0xFE, body @ ..] => (body, true),
        [0xEF, 0xBB, 0xBF, body @ ..] => (body, false),
        _ => (bytes, false),
    }
}

/// Units of 8-bit bytes, each of which is one.
fn widen(alloc: Global, bytes: &[u8]) -> Result<Vec<u16>, AllocError>
    ensures { IfOk result (λ us. us.items ≡ bytes.now) }
{
    let mut units = Vec::with_capacity(alloc, bytes.len())?;
    for byte in bytes {
        units.push_reserved(u16::from(*byte));
    }
    Ok(units)
}

/// Units of pairs of bytes, the low one first.
fn join_pairs(alloc: Global, bytes: &[u8]) -> Result<Vec<u16>, AllocError>
    ensures { IfOk result (λ us. us.items ≡ pairs bytes.now) }
{
    let mut units = Vec::with_capacity(alloc, bytes.len() / 2)?;
    for at in 0..bytes.len() / 2 {
        let unit = u16::from(bytes[2 * at]) + 256 * u16::from(bytes[2 * at + 1]);
        units.push_reserved(unit);
    }
    Ok(units)
}
