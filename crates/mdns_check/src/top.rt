// The call that the program makes.
ghost use Rattle.std.specs.Prelude.{◌≡◌, ◌⊎◌, ◌≢◌, ◌≤◌, ◌↔◌, ◌<◌, length};
ghost use Rattle.mdns_base.specs.Outside.{Rose};
ghost use Rattle.mdns_check.specs.Statuses.{ReadAll, IsTooLarge, IsWithin, Says, Begins, IsToldStatus, IsStatus};

use crate::stop::{NO_MEMORY, READ_FAULT, TOO_LARGE, USAGE, WRITE_FAULT};
use crate::verdict::judge;
use mdns_base::{Sink, Source};
use mdns_streams::{ReadError, read_all};
use std::alloc::Global;

/// The most bytes that a transcript may have.
const MOST_BYTES: usize = 1_048_576;

/// Reads a transcript to its end and says whether every daemon's history in it is legal. The answer is the status of the program:
/// - 0: it is the print of rows, and every history is legal: `legal N` was put, with the count of rows.
/// - 1: it is the print of rows, and row n is the first with which its daemon's history isn't legal: `illegal n` was put.
/// - 2: exactly where there is a word. Nothing is read or put.
/// - 3: it is the print of no rows, which is seen at line N: `bad line N` was put.
/// - 4: exactly where the source failed. Nothing is put.
/// - 5: exactly where the sink failed. A beginning of the line was put.
/// - 6: memory was refused. Nothing is put.
/// - 8: there are more than 1,048,576 bytes. Nothing is put.
pub fn mdns_check<S: Source, K: Sink>(
    alloc: Global,
    words: &[String],
    input: &mut S,
    output: &mut K,
) -> u8
    ensures told { IsToldStatus result → ReadAll (S.left input.old) (S.left input.new)
        (λ text. Says text (K.held output.old) (K.held output.new) result) }
    ensures usage { (result ≡ 2) ↔ (0 < length words.now) }
    ensures unread { result ≡ 2 → (input.new ≡ input.old) × (output.new ≡ output.old) }
    ensures read { result ≡ 4 → Rose (S.faults input.old) (S.faults input.new)
        × IsWithin (S.left input.old) (S.left input.new) × (output.new ≡ output.old) }
    ensures quiet_source { result ≢ 4 → S.faults input.new ≡ S.faults input.old }
    ensures large { result ≡ 8 → IsTooLarge (S.left input.old) (S.left input.new) × (output.new ≡ output.old) }
    ensures write { result ≡ 5 → Rose (K.faults output.old) (K.faults output.new) }
    ensures quiet_sink { result ≢ 5 → K.faults output.new ≡ K.faults output.old }
    ensures broken { result ≡ 5 → ReadAll (S.left input.old) (S.left input.new)
        (λ text. Begins text (K.held output.old) (K.held output.new)) }
    ensures memory { result ≡ 6 → output.new ≡ output.old }
    ensures others { IsStatus result }
{
    if !words.is_empty() {
        return USAGE;
    }
    match read_all(alloc, input, MOST_BYTES) {
        Ok(text) => tell(alloc, text.as_slice(), output),
        Err(ReadError::Fault) => READ_FAULT,
        Err(ReadError::NoMemory) => NO_MEMORY,
        Err(ReadError::TooLarge) => TOO_LARGE,
    }
}

// Puts the line that says what is right to say of a text; the answer is the status.
fn tell<K: Sink>(alloc: Global, text: &[u8], output: &mut K) -> u8
    requires { length text.now ≤ 1048576 }
    ensures told { IsToldStatus result → Says text.now (K.held output.old) (K.held output.new) result }
    ensures write { result ≡ 5 → Rose (K.faults output.old) (K.faults output.new) }
    ensures quiet { result ≢ 5 → K.faults output.new ≡ K.faults output.old }
    ensures broken { result ≡ 5 → Begins text.now (K.held output.old) (K.held output.new) }
    ensures memory { result ≡ 6 → output.new ≡ output.old }
    ensures others { IsToldStatus result ⊎ ((result ≡ 5) ⊎ (result ≡ 6)) }
{
    let Ok(verdict) = judge(alloc, text) else {
        return NO_MEMORY;
    };
    let Ok(line) = verdict.line(alloc) else {
        return NO_MEMORY;
    };
    match output.put(line.as_slice()) {
        Ok(()) => verdict.status(),
        Err(_) => WRITE_FAULT,
    }
}
