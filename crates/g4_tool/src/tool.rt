// The top call.
ghost use Rattle.std.specs.Prelude.{◌≡◌, ◌≢◌, ◌≤◌, ◌↔◌, ◌⊎◌, Some, map, string_bytes};
ghost use Rattle.g4_ports.specs.Ports.{Rose};
ghost use Rattle.g4_tool.specs.Ends.{IsNoCommand};
ghost use Rattle.g4_fetch.specs.Files.{Files};
ghost use Rattle.g4_tool.specs.Running.{HasCauses, HasReportedFront, IsWhole, NothingFails};

use crate::report::{Stopped, make_report};
use crate::status::Status;
use crate::write::write_lines;
use g4_ports::{Gate, Shelf, Sink};
use std::alloc::Global;
use std::sync::Wait;
use std::thread::Threads;

/// Runs a command line: fetches the grammar that it names and checks it. `check` writes what it has; `parse` fetches the files
/// as well, and writes a line for each, its tree on out or its first fault on err, and a closing line. Nothing is written before
/// the whole report is made.
pub fn run<R: Threads + Wait + Sync, S: Shelf, O: Sink, E: Sink, G: Gate>(
    rt: &R,
    alloc: Global,
    words: &[String],
    shelf: &mut S,
    out: &mut O,
    err: &mut E,
    gate: &G,
) -> Status
    // Where nothing fails, both outputs have taken the whole report, and the status is its own.
    ensures whole { (files : Files)
        → NothingFails files (S.told shelf.old) (S.faults shelf.old) (S.faults shelf.new) (O.faults out.old) (O.faults out.new)
        (E.faults err.old) (E.faults err.new) result
        → IsWhole files (map string_bytes words.now) result (O.taken out.old) (O.taken out.new) (E.taken err.old) (E.taken err.new) }
    // Whatever fails, the outputs have taken nothing, or lines of the report up to some place and nothing after it.
    ensures part { (files : Files) → S.told shelf.old ≡ Some files
        → HasReportedFront files (map string_bytes words.now) (O.taken out.old) (O.taken out.new) (E.taken err.old) (E.taken err.new) }
    // Where a fetch failed or memory ran out, nothing has been written.
    ensures silent { (result ≡ Status.NoMemory) ⊎ (S.faults shelf.new ≢ S.faults shelf.old)
        → (O.taken out.new ≡ O.taken out.old) × (E.taken err.new ≡ E.taken err.old) }
    // Usage comes exactly where the words are no command, whether the files are known or not.
    ensures usage { ¬ (Rose (O.faults out.old) (O.faults out.new)) → ¬ (Rose (E.faults err.old) (E.faults err.new))
        → result ≢ Status.NoMemory
        → ((result ≡ Status.Usage) ↔ (IsNoCommand (map string_bytes words.now))) }
    // Each status has its cause, whether the files are known or not.
    ensures causes { HasCauses (IsNoCommand (map string_bytes words.now))
        (O.faults out.old) (O.faults out.new) (E.faults err.old) (E.faults err.new)
        (S.faults shelf.old) (S.faults shelf.new) (S.misses shelf.old) (S.misses shelf.new) result }
    // The files are the same afterwards, and no count falls: a second run can follow the first.
    ensures keeps { S.told shelf.new ≡ S.told shelf.old }
    ensures grows { (S.faults shelf.old ≤ S.faults shelf.new) × (S.misses shelf.old ≤ S.misses shelf.new)
        × (O.faults out.old ≤ O.faults out.new) × (E.faults err.old ≤ E.faults err.new) }
{
    match make_report(rt, alloc, shelf, words, gate) {
        Ok(report) => match write_lines(report.lines.as_slice(), out, err) {
            Ok(()) => report.status,
            Err(_) => Status::Unwritten,
        },
        Err(Stopped::Failed) => Status::Unread,
        Err(Stopped::NoMemory) => Status::NoMemory,
    }
}
