//! The lines of a report, gathered and handed to the sink some kilobytes at a time.

ghost use Rattle.std.specs.Prelude.{◌≡◌, ◌<◌, ◌++◌, ℕ, List, [], Some, length, slice_get, OnOk, OnErr};
ghost use Rattle.std.specs.List.{concat};
ghost use Rattle.lensio.specs.Count.{Rose};
ghost use Rattle.lensio.specs.Taken.{TakesFront};
ghost use Rattle.lensrun.specs.Gathered.{Gathers};

use arrayvec::ArrayString;
use lensio::shelf::Failed;
use lensio::sink::Sink;
use lensio::transfer::put;
use lensreport::pieces::Line;

const PIECE: usize = 8192;

/// Text that is gathered before it is written.
pub type Piece = ArrayString<PIECE>;

/// Lines of a report, each printed when it is asked for.
pub trait Lines {
    ghost lines: { Self → List (List ℕ) };

    /// How many lines there are.
    fn count(&self) -> usize
        ensures { result ≡ length (lines self.now) };

    /// Prints the line of a number, from 0, into an empty line.
    fn print(&self, i: usize, out: &mut Line)
        requires within { i < length (lines self.now) }
        requires empty { out.old.bytes ≡ [] }
        ensures { slice_get (lines self.now) i ≡ Some out.new.bytes };
}

/// Adds a line to what is gathered, which is written before where there is no room beside it.
pub fn gather_line<K: Sink>(line: &Line, piece: &mut Piece, out: &mut K) -> Result<(), Failed>
    ensures ok { OnOk result
        (Gathers (K.taken out.old) (K.taken out.new) piece.new.bytes
        (piece.old.bytes ++ line.now.bytes)) }
    ensures front { OnErr result
        (TakesFront (K.taken out.old) (K.taken out.new) (piece.old.bytes ++ line.now.bytes)) }
    ensures failed { OnErr result (Rose (K.faults out.old) (K.faults out.new)) }
    ensures taken { OnOk result (K.faults out.new ≡ K.faults out.old) }
{
    if PIECE - piece.len() < line.len() {
        put(out, piece.as_str().as_bytes())?;
        piece.clear();
    }
    piece.push_str(line.as_str());
    Ok(())
}

/// Adds lines to what is gathered, of which is written what finds no room.
pub fn gather_lines<L: Lines, K: Sink>(
    lines: &L,
    piece: &mut Piece,
    out: &mut K,
) -> Result<(), Failed>
    ensures ok { OnOk result
        (Gathers (K.taken out.old) (K.taken out.new) piece.new.bytes
        (piece.old.bytes ++ concat (L.lines lines.now))) }
    ensures front { OnErr result
        (TakesFront (K.taken out.old) (K.taken out.new)
        (piece.old.bytes ++ concat (L.lines lines.now))) }
    ensures failed { OnErr result (Rose (K.faults out.old) (K.faults out.new)) }
    ensures taken { OnOk result (K.faults out.new ≡ K.faults out.old) }
{
    let mut line = Line::new();
    for i in 0..lines.count() {
        line.clear();
        lines.print(i, &mut line);
        gather_line(&line, piece, out)?;
    }
    Ok(())
}
