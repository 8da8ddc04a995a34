// Where chains of pointers end. (RFC 1035 4.1.4)
ghost use Rattle.std.specs.Prelude.{◌≡◌, ◌<◌, ◌≤◌, length, IfOk};
ghost use Rattle.dns_pointers.specs.Chains.{end_kept, AreEnds, IsEndOf};

use crate::labels::target;
use std::alloc::{AllocError, Global};
use std::marker::Model;

// The bytes of a message for which an Ethernet frame has room. (RFC 6762 17)
const ONE_FRAME: usize = 1472;

/// For each offset of a long message, where the chain of pointers that begins there ends: at the first that begins a
/// label, the zero byte or no pointer that may be followed. So the names that aim at a chain don't follow it anew. For
/// a message that fits a frame nothing is kept, since its chains are short.
#[derive(Drop)]
pub(crate) struct Chains {
    ends: Vec<u16>,
}

impl Model for Chains {
    ghost use Rattle.std.specs.Prelude.{List, ℕ};

    ghost Value = { List ℕ };

    ghost view = { λ chains. chains.ends.items };
}

impl Chains {
    /// The ends of a message's chains. The error is want of memory.
    pub(crate) fn of(alloc: Global, bytes: &[u8]) -> Result<Chains, AllocError>
        requires { length bytes.now ≤ 8972 }
        ensures { IfOk result (λ chains. AreEnds bytes.now chains) }
    {
        if bytes.len() <= ONE_FRAME {
            return Ok(Chains {
                ends: Vec::new(alloc),
            });
        }
        let mut ends = Vec::with_capacity(alloc, bytes.len())?;
        'ends: for at in 0..bytes.len() {
            let end = end_at(bytes, ends.as_slice(), at);
            ends.push(end)?;
        }
        Ok(Chains { ends })
    }

    /// Where the chain of pointers ends that begins at an offset: the offset itself where none is kept.
    pub(crate) fn end(&self, start: usize) -> usize
        ensures { result ≡ end_kept self.now start }
    {
        match self.ends.get(start) {
            Some(end) => usize::from(*end),
            None => start,
        }
    }
}

// The end of the chain of pointers that begins at an offset, by the ends of those that begin below.
fn end_at(bytes: &[u8], ends: &[u16], at: usize) -> u16
    requires short { length bytes.now ≤ 8972 }
    requires within { at < length bytes.now }
    requires all { length ends.now ≡ at }
    requires ends { AreEnds bytes.now ends.now }
    ensures { IsEndOf bytes.now at result }
{
    let first = bytes[at];
    if first >= 192
        && let Ok(target) = target(bytes, at, at, first)
    {
        return ends[target];
    }
    at as u16
}
