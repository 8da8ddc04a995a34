// A script that is made of a number.
ghost use Rattle.std.specs.Prelude.{◌≡◌, ◌≢◌, ◌≤◌};
ghost use Rattle.mdns_base.specs.Outside.{Rose};
ghost use Rattle.mdns_command.specs.Generating.{GainsSummary, BeginsSummary, IsGenStatus};

use mdns_base::Sink;
use mdns_generator::summarize;
use mdns_play::{DONE, NO_MEMORY, WRITE_FAULT};
use std::alloc::Global;

/// Plays the script that is made of a number, from 1 to 200, and puts its summary. The answer is the status of the program:
/// - 0: it was played, and its summary was put.
/// - 5: exactly where the sink failed. A beginning of the summary was put.
/// - 6: memory was refused. Nothing was put.
pub fn run_gen<K: Sink>(alloc: Global, number: u32, output: &mut K) -> u8
    requires low { 1 ≤ number }
    requires high { number ≤ 200 }

    ensures done { result ≡ 0 → GainsSummary number (K.held output.old) (K.held output.new) }
    ensures broken { result ≡ 5 → BeginsSummary number (K.held output.old) (K.held output.new) }
    ensures memory { result ≡ 6 → output.new ≡ output.old }
    ensures write { result ≡ 5 → Rose (K.faults output.old) (K.faults output.new) }
    ensures quiet_sink { result ≢ 5 → K.faults output.new ≡ K.faults output.old }
    ensures others { IsGenStatus result }
{
    let Ok(summary) = summarize(alloc, number) else {
        return NO_MEMORY;
    };
    match output.put(summary.as_slice()) {
        Ok(()) => DONE,
        Err(_) => WRITE_FAULT,
    }
}
