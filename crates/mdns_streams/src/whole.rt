// An input, read whole.
ghost use Rattle.std.specs.Prelude.{◌≡◌, ◌≢◌, ◌<◌, ◌≤◌, ◌^◌, Err, IfOk, length};
ghost use Rattle.mdns_base.specs.Outside.{Rose};
ghost use Rattle.mdns_streams.specs.Reads.{ReadAll, IsTooLarge, IsWithin};

use mdns_base::Source;
use std::alloc::Global;

/// Why an input wasn't read to its end.
#[derive(Clone, Copy, Debug, PartialEq, Eq)]
pub enum ReadError {
    /// The source failed.
    Fault,
    /// Memory was refused.
    NoMemory,
    /// More bytes were taken than the input may have.
    TooLarge,
}

/// All the bytes of an input, which may have `most`. Where a source tells what it has left, the clauses say what was taken of it.
/// The error:
/// - `Fault`: exactly where the source failed; no more than `most` bytes were taken.
/// - `NoMemory`: memory was refused.
/// - `TooLarge`: more than `most` bytes were taken.
pub fn read_all<S: Source>(alloc: Global, input: &mut S, most: usize) -> Result<Vec<u8>, ReadError>
    requires { most < 2 ^ 32 }
    ensures most { IfOk result (λ all. length all.items ≤ most) }
    ensures all { IfOk result (λ all.
        ReadAll most (S.left input.old) (S.left input.new) (λ bytes. all.items ≡ bytes)) }
    ensures large { result ≡ Err ReadError.TooLarge → IsTooLarge most (S.left input.old) (S.left input.new) }
    ensures fault { result ≡ Err ReadError.Fault → Rose (S.faults input.old) (S.faults input.new)
        × IsWithin most (S.left input.old) (S.left input.new) }
    ensures quiet { result ≢ Err ReadError.Fault → S.faults input.new ≡ S.faults input.old }
{
    let mut all = Vec::new(alloc);
    let mut buffer = [0u8; 4096];
    'pieces: while all.len() <= most {
        let Ok(count) = input.read(&mut buffer) else {
            return Err(ReadError::Fault);
        };
        if count == 0 {
            return Ok(all);
        }
        if all.extend_from_slice(&buffer[..count]).is_err() {
            return Err(ReadError::NoMemory);
        }
    }
    Err(ReadError::TooLarge)
}
