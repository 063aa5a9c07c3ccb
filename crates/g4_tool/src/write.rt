// The lines of a report, written one at a time.
ghost use Rattle.std.specs.Prelude.{◌∷◌, [], OnOk};
ghost use Rattle.g4_tool.specs.Writing.{Wrote, WroteFront, CountsWriting};

use g4_outcome::Line;
use g4_ports::{Failed, Sink, write_all};

/// Writes a line.
pub fn write_line<O: Sink, E: Sink>(line: &Line, out: &mut O, err: &mut E) -> Result<(), Failed>
    ensures whole { OnOk result (Wrote (line.now ∷ []) (O.taken out.old) (O.taken out.new) (E.taken err.old) (E.taken err.new)) }
    ensures part { WroteFront (line.now ∷ []) (O.taken out.old) (O.taken out.new) (E.taken err.old) (E.taken err.new) }
    ensures counts { CountsWriting (O.faults out.old) (O.faults out.new) (E.faults err.old) (E.faults err.new) result }
{
    match line {
        Line::ToOut(bytes) => write_all(out, bytes.as_slice())?,
        Line::ToErr(bytes) => write_all(err, bytes.as_slice())?,
    }
    Ok(())
}

/// Writes the lines in order.
pub fn write_lines<O: Sink, E: Sink>(lines: &[Line], out: &mut O, err: &mut E) -> Result<(), Failed>
    ensures whole { OnOk result (Wrote lines.now (O.taken out.old) (O.taken out.new) (E.taken err.old) (E.taken err.new)) }
    ensures part { WroteFront lines.now (O.taken out.old) (O.taken out.new) (E.taken err.old) (E.taken err.new) }
    ensures counts { CountsWriting (O.faults out.old) (O.faults out.new) (E.faults err.old) (E.faults err.new) result }
{
    for line in lines {
        write_line(line, out, err)?;
    }
    Ok(())
}
