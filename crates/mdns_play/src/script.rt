// A script, run line by line.
ghost use Rattle.std.specs.Prelude.{ℕ, ◌≡◌, ◌≢◌, ◌⊎◌, ◌≤◌, Err, take, OnOk, OnErr, IfOk, length};
ghost use Rattle.std.specs.Io.KnownBytes.{Appends};
ghost use Rattle.mdns_base.specs.Outside.{Rose};
ghost use Rattle.mdns_script.specs.Lines.{line_of};
ghost use Rattle.mdns_hub.specs.Played.{Played};
ghost use Rattle.mdns_hub.specs.Hubs.{StandsFor, BreaksIn};
ghost use Rattle.mdns_play.specs.Scripts.{note_text};
ghost use Rattle.mdns_play.specs.Statuses.{ReadAll, IsTooLarge, IsWithin, PlaysScript, Stops, IsBadLine, BreaksOff, PlaysPartOfLine, IsScriptStatus};
ghost use Rattle.mdns_play.specs.Lines.{RanLine, StopsAt, BreaksAt, IsFault};

use crate::lines::next_line;
use crate::stop::{NO_MEMORY, READ_FAULT, Stop, TOO_LARGE, status_of};
use mdns_asserts::assertions_are_earned;
use mdns_base::{Sink, Source};
use mdns_groups::{groups_are_few, registrations_have_groups};
use mdns_history::{good_calls_succeed, items_replay};
use mdns_hub::Hub;
use mdns_script::{Line, read_line};
use mdns_streams::{ReadError, read_all};
use number_text::put_decimal;
use std::alloc::{AllocError, Global};

/// The most bytes that a script may have.
const MOST_BYTES: usize = 67_108_864;

/// Reads the script to its end and runs it line by line. The answer is the status of the program:
/// - 0: all lines were played, and the print of every entry was put.
/// - 3: a line is bad, or bad at its place. The print of the lines before it was put, and a line that names it.
/// - 4: exactly where the source failed. Nothing is put.
/// - 5: exactly where the sink failed. A beginning of what was to be put was put.
/// - 6: memory was refused. What was put is as with 5.
/// - 8: there are more than 67,108,864 bytes. Nothing is put.
pub fn run_script<S: Source, K: Sink>(alloc: Global, input: &mut S, output: &mut K) -> u8
    ensures done { result ≡ 0 → ReadAll (S.left input.old) (S.left input.new)
        (λ script. PlaysScript script (K.held output.old) (K.held output.new)) }
    ensures bad { result ≡ 3 → ReadAll (S.left input.old) (S.left input.new)
        (λ script. Stops script (K.held output.old) (K.held output.new)) }

    ensures read { result ≡ 4 → Rose (S.faults input.old) (S.faults input.new)
        × IsWithin (S.left input.old) (S.left input.new) × (output.new ≡ output.old) }
    ensures quiet_source { result ≢ 4 → S.faults input.new ≡ S.faults input.old }
    ensures large { result ≡ 8 → IsTooLarge (S.left input.old) (S.left input.new) × (output.new ≡ output.old) }

    // A beginning of what was to be printed was then put.
    ensures write { result ≡ 5 → Rose (K.faults output.old) (K.faults output.new) }
    ensures quiet_sink { result ≢ 5 → K.faults output.new ≡ K.faults output.old }
    ensures broken { result ≡ 5 → ReadAll (S.left input.old) (S.left input.new)
        (λ script. BreaksOff script (K.held output.old) (K.held output.new)) }
    ensures memory { result ≡ 6 → (output.new ≡ output.old) ⊎ ReadAll (S.left input.old) (S.left input.new)
        (λ script. BreaksOff script (K.held output.old) (K.held output.new)) }

    ensures others { IsScriptStatus result }
{
    match read_all(alloc, input, MOST_BYTES) {
        Ok(script) => status_of(run_lines(alloc, script.as_slice(), output)),
        Err(ReadError::Fault) => READ_FAULT,
        Err(ReadError::NoMemory) => NO_MEMORY,
        Err(ReadError::TooLarge) => TOO_LARGE,
    }
}

// Runs the lines of a script.
fn run_lines<K: Sink>(alloc: Global, script: &[u8], output: &mut K) -> Result<(), Stop>
    requires { length script.now ≤ 67108864 }
    ensures done { OnOk result (PlaysScript script.now (K.held output.old) (K.held output.new)) }
    ensures bad { result ≡ Err Stop.BadLine → Stops script.now (K.held output.old) (K.held output.new) }
    ensures broken { IsFault result → BreaksOff script.now (K.held output.old) (K.held output.new) }
    ensures write { result ≡ Err Stop.WriteFault → Rose (K.faults output.old) (K.faults output.new) }
    ensures quiet { result ≢ Err Stop.WriteFault → K.faults output.new ≡ K.faults output.old }
{
    let mut hub = Hub::new(alloc);
    let mut rest = script;
    let mut number = 1u64;
    'lines: while let Some((line, after)) = next_line(rest) {
        run_numbered(alloc, &mut hub, line, number, output)?;
        rest = after;
        number += 1;
    }
    // What was played is legal, and of every legal history these laws hold.
    items_replay();
    good_calls_succeed();
    assertions_are_earned();
    registrations_have_groups();
    groups_are_few();
    Ok(())
}

// Runs the line of a number. One that is bad is named in the output.
fn run_numbered<K: Sink>(
    alloc: Global,
    hub: &mut Hub,
    line: &[u8],
    number: u64,
    output: &mut K,
) -> Result<(), Stop>
    ensures ran { OnOk result (RanLine hub.old line.now hub.new (K.held output.old) (K.held output.new)) }
    ensures bad { result ≡ Err Stop.BadLine
        → StopsAt hub.old line.now number (K.held output.old) (K.held output.new) }
    ensures broken { IsFault result → BreaksAt hub.old line.now number (K.held output.old) (K.held output.new) }
    ensures write { result ≡ Err Stop.WriteFault → Rose (K.faults output.old) (K.faults output.new) }
    ensures quiet { result ≢ Err Stop.WriteFault → K.faults output.new ≡ K.faults output.old }
    ensures later { K.faults output.old ≤ K.faults output.new }
{
    match run_line(alloc, hub, line, output) {
        Err(Stop::BadLine) => put_note(alloc, number, output),
        ran => ran,
    }
}

// Runs a line, and puts the print of what it leads to.
fn run_line<K: Sink>(alloc: Global, hub: &mut Hub, line: &[u8], output: &mut K) -> Result<(), Stop>
    ensures ran { OnOk result (RanLine hub.old line.now hub.new (K.held output.old) (K.held output.new)) }
    ensures bad { result ≡ Err Stop.BadLine → (played : Played) → StandsFor hub.old played
        → IsBadLine played line.now × (K.held output.new ≡ K.held output.old) }
    ensures broken { IsFault result
        → BreaksIn (PlaysPartOfLine (line_of line.now)) hub.old (K.held output.old) (K.held output.new) }
    ensures write { result ≡ Err Stop.WriteFault → Rose (K.faults output.old) (K.faults output.new) }
    ensures quiet { result ≢ Err Stop.WriteFault → K.faults output.new ≡ K.faults output.old }
    ensures later { K.faults output.old ≤ K.faults output.new }
{
    match read_line(alloc, line)? {
        Line::Bad => Err(Stop::BadLine),
        Line::Command(command) => {
            hub.run(command, output)?;
            Ok(())
        }
    }
}

// Puts the line that names the bad line; the answer is that there is one.
fn put_note<K: Sink>(alloc: Global, number: u64, output: &mut K) -> Result<(), Stop>
    ensures put { result ≡ Err Stop.BadLine → Appends (K.held output.old) (K.held output.new) (note_text number) }
    ensures part { IsFault result → (n : ℕ)
        × Appends (K.held output.old) (K.held output.new) (take n (note_text number)) }
    ensures others { (result ≡ Err Stop.BadLine) ⊎ IsFault result }
    ensures write { result ≡ Err Stop.WriteFault → Rose (K.faults output.old) (K.faults output.new) }
    ensures quiet { result ≢ Err Stop.WriteFault → K.faults output.new ≡ K.faults output.old }
    ensures later { K.faults output.old ≤ K.faults output.new }
{
    let note = note(alloc, number)?;
    match output.put(note.as_slice()) {
        Ok(()) => Err(Stop::BadLine),
        Err(_) => Err(Stop::WriteFault),
    }
}

fn note(alloc: Global, number: u64) -> Result<Vec<u8>, AllocError>
    ensures { IfOk result (λ text. text.items ≡ note_text number) }
{
    let mut out = Vec::new(alloc);
    out.extend_from_slice(b"bad line ")?;
    put_decimal(&mut out, number)?;
    out.extend_from_slice(b"\n")?;
    Ok(out)
}
