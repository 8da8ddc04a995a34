// The call that the program makes.
ghost use Rattle.std.specs.Io.KnownBytes.{Appends};
ghost use Rattle.std.specs.Prelude.{◌≡◌, ◌⊎◌, ◌≢◌, ℕ, take};
ghost use Rattle.mdns_base.specs.Outside.{Rose};
ghost use Rattle.mdns_outside.specs.declared.plan.ServePlan.{ServePlan};
ghost use Rattle.mdns_server.specs.Endings.{IsServeStatus, serving_line};
ghost use Rattle.mdns_server.specs.Serving.{Serves};
ghost use Rattle.mdns_play.specs.Statuses.{Stops, PlaysScript, BreaksOff, ReadAll, IsTooLarge, IsWithin, IsScriptStatus};
ghost use Rattle.mdns_command.specs.Generating.{GainsSummary, BeginsSummary, IsGenStatus};
ghost use Rattle.mdns_command.specs.Words.{AreNoCommand, AreScript, AreGen, AskFor, LackMemory};

use crate::command::{gen_number, is_script, serve_words, words_of};
use crate::generated::run_gen;
use crate::stop::USAGE;
use mdns_base::{Sink, Source};
use mdns_outside::Place;
use mdns_play::run_script;
use mdns_server::serve_by_words;
use std::alloc::Global;
use std::env::Args;
use std::io;
use std::sync::Wait;

/// The command line as it was read, the program's own name first, and what its words take memory from.
#[derive(Drop)]
pub struct CommandLine {
    pub alloc: Global,
    pub args: io::Result<Args>,
}

/// All that the program does with its command line. The answer is its status.
///
/// The commands are `script`, with the statuses of `run_script`, `gen` with a number from 1 to 200, with those of `run_gen`, and
/// `serve` with words that ask for a server, with those of `serve_by_words`. Other words, and a word that is no text, give 2; want of memory for the words gives 6. Then
/// nothing is read, written or made.
pub fn mdnsd<R: Wait + Copy + Send + 'static, S: Source, K: Sink, P: Place>(
    rt: &R,
    line: CommandLine,
    input: &mut S,
    output: &mut K,
    place: &mut P,
) -> u8
    ensures usage { result ≡ 2 → AreNoCommand line.args }
    ensures unread { AreNoCommand line.args → ((result ≡ 2) ⊎ (result ≡ 6))
        × (input.new ≡ input.old) × (output.new ≡ output.old) × (place.new ≡ place.old) }
    ensures lacking { LackMemory line.args → (result ≡ 6)
        × (input.new ≡ input.old) × (output.new ≡ output.old) × (place.new ≡ place.old) }

    // A script.
    ensures done { AreScript line.args → result ≡ 0 → ReadAll (S.left input.old) (S.left input.new)
        (λ script. PlaysScript script (K.held output.old) (K.held output.new)) }
    ensures bad { result ≡ 3 → ReadAll (S.left input.old) (S.left input.new)
        (λ script. Stops script (K.held output.old) (K.held output.new)) }
    ensures read { result ≡ 4 → Rose (S.faults input.old) (S.faults input.new)
        × IsWithin (S.left input.old) (S.left input.new) × (output.new ≡ output.old) }
    ensures quiet_source { result ≢ 4 → S.faults input.new ≡ S.faults input.old }
    ensures large { result ≡ 8 → IsTooLarge (S.left input.old) (S.left input.new) × (output.new ≡ output.old) }
    // A beginning of what was to be printed was then put.
    ensures broken { AreScript line.args → result ≡ 5 → ReadAll (S.left input.old) (S.left input.new)
        (λ script. BreaksOff script (K.held output.old) (K.held output.new)) }
    ensures memory { AreScript line.args → result ≡ 6 → (output.new ≡ output.old) ⊎ ReadAll (S.left input.old) (S.left input.new)
        (λ script. BreaksOff script (K.held output.old) (K.held output.new)) }
    ensures script { AreScript line.args → IsScriptStatus result × (place.new ≡ place.old) }

    // A script that is made of a number: its summary was put, a beginning of it, or nothing.
    ensures generated { (n : ℕ) → AreGen n line.args → IsGenStatus result × (input.new ≡ input.old) × (place.new ≡ place.old) }
    ensures summary { (n : ℕ) → AreGen n line.args → result ≡ 0 → GainsSummary n (K.held output.old) (K.held output.new) }
    ensures beginning { (n : ℕ) → AreGen n line.args → result ≡ 5 → BeginsSummary n (K.held output.old) (K.held output.new) }
    ensures nothing { (n : ℕ) → AreGen n line.args → result ≡ 6 → output.new ≡ output.old }

    // A server. What its status says of the place, which was given the plan.
    ensures serves { (plan : ServePlan) → AskFor plan line.args
        → Serves plan (P.counted place.old) (P.counted place.new) result ⊎ ((result ≡ 6) × (place.new ≡ place.old)) }
    ensures server { (plan : ServePlan) → AskFor plan line.args → IsServeStatus result × (input.new ≡ input.old) }
    ensures serving { (plan : ServePlan) → AskFor plan line.args → result ≡ 0 → Appends (K.held output.old) (K.held output.new) serving_line }
    ensures line { (plan : ServePlan) → AskFor plan line.args → (n : ℕ) × Appends (K.held output.old) (K.held output.new) (take n serving_line) }

    ensures write { result ≡ 5 → Rose (K.faults output.old) (K.faults output.new) }
    ensures quiet_sink { result ≢ 5 → K.faults output.new ≡ K.faults output.old }
{
    let CommandLine { alloc, args } = line;
    let words = match words_of(alloc, args) {
        Ok(words) => words,
        Err(status) => return status,
    };
    if is_script(&words) {
        return run_script(alloc, input, output);
    }
    if let Some(number) = gen_number(&words) {
        return run_gen(alloc, number, output);
    }
    match serve_words(&words) {
        Some(behind) => serve_by_words(*rt, alloc, behind, place, output),
        None => USAGE,
    }
}
