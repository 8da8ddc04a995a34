// Serving by words.
ghost use Rattle.std.specs.Io.KnownBytes.{Appends};
ghost use Rattle.std.specs.Prelude.{◌≡◌, ◌≢◌, ◌⊎◌, ℕ, None, Some, take};
ghost use Rattle.mdns_base.specs.Outside.{Rose};
ghost use Rattle.mdns_outside.specs.declared.plan.ServePlan.{ServePlan};
ghost use Rattle.mdns_server.specs.Endings.{IsServeStatus, serving_line};
ghost use Rattle.mdns_words.specs.Options.{texts};
ghost use Rattle.mdns_server.specs.Serving.{plan_of, Serves};

use crate::booting::boot_plan;
use crate::serving::serve;
use crate::status::{NO_MEMORY, USAGE};
use mdns_base::Sink;
use mdns_outside::Place;
use mdns_words::{Asked, serve_words};
use std::alloc::Global;
use std::sync::Wait;

/// Serves what the words behind `serve` ask for: hands the plan to the place, boots its daemon (`boot_plan`), and serves it.
/// The status:
/// - 0: the door gave its last connection, and all sessions ended.
/// - 2: the words aren't as the command wants them. Nothing is done.
/// - 5: the output failed. Nothing was accepted.
/// - 6: memory was refused before anything was accepted.
/// - 9: the door failed, or couldn't be made.
/// - 10: a thread couldn't be started, or what starts threads couldn't be made.
/// - 11: the link failed: the ear, or a part couldn't be made.
pub fn serve_by_words<R: Wait + Copy + Send + 'static, P: Place, K: Sink>(
    rt: R,
    alloc: Global,
    words: &[String],
    place: &mut P,
    output: &mut K,
) -> u8
    ensures usage { result ≡ 2 → plan_of (texts words.now) ≡ None }
    ensures wrong { plan_of (texts words.now) ≡ None
        → ((result ≡ 2) ⊎ (result ≡ 6)) × (place.new ≡ place.old) × (output.new ≡ output.old) }
    ensures serves { (plan : ServePlan) → plan_of (texts words.now) ≡ Some plan
        → Serves plan (P.counted place.old) (P.counted place.new) result ⊎ ((result ≡ 6) × (place.new ≡ place.old)) }
    ensures status { (result ≡ 2) ⊎ IsServeStatus result }
    // The line `serving` was put, or a beginning of it.
    ensures put { (n : ℕ) × Appends (K.held output.old) (K.held output.new) (take n serving_line) }
    ensures whole { result ≡ 0 → Appends (K.held output.old) (K.held output.new) serving_line }
    ensures write { result ≡ 5 → Rose (K.faults output.old) (K.faults output.new) }
    ensures quiet { result ≢ 5 → K.faults output.new ≡ K.faults output.old }
{
    match serve_words(alloc, words) {
        Ok(Some(asked)) => serve_asked(rt, alloc, asked, place, output),
        Ok(None) => USAGE,
        Err(_) => NO_MEMORY,
    }
}

// Serves what is asked.
fn serve_asked<R: Wait + Copy + Send + 'static, P: Place, K: Sink>(
    rt: R,
    alloc: Global,
    asked: Asked,
    place: &mut P,
    output: &mut K,
) -> u8
    ensures serves { Serves asked.plan (P.counted place.old) (P.counted place.new) result }
    ensures status { IsServeStatus result }
    ensures put { (n : ℕ) × Appends (K.held output.old) (K.held output.new) (take n serving_line) }
    ensures whole { result ≡ 0 → Appends (K.held output.old) (K.held output.new) serving_line }
    ensures write { result ≡ 5 → Rose (K.faults output.old) (K.faults output.new) }
    ensures quiet { result ≢ 5 → K.faults output.new ≡ K.faults output.old }
{
    match boot_plan(alloc, asked, place) {
        Ok(mut daemon) => serve(rt, alloc, &mut daemon, place, output),
        Err(status) => status,
    }
}
