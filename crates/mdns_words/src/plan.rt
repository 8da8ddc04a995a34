// What the words of `serve` ask for.
ghost use Rattle.std.specs.Prelude.{◌≡◌, IfOk};
ghost use Rattle.mdns_words.specs.Options.{texts};
ghost use Rattle.mdns_words.specs.Plans.{asked_by, serve_asked};

use crate::HostLabel;
use crate::options::Options;
use crate::words::read_options;
use mdns_outside::ServePlan;
use std::alloc::{AllocError, Global};

/// The seed where none is given.
const SEED: u32 = 1;

/// What the words of `serve` ask for.
#[derive(Drop)]
pub struct Asked {
    /// The label of the host.
    pub host: HostLabel,
    /// What is served.
    pub plan: ServePlan,
}

/// What the words behind `serve` ask for; none where they aren't as the command wants them: `--socket PATH`,
/// `--host LABEL`, `--address IPV4` and `--relay PORT` once each, `--seed N` at most once, and any number of peers' ports, in any
/// order.
/// Refused only for want of memory.
pub fn serve_words(alloc: Global, words: &[String]) -> Result<Option<Asked>, AllocError>
    ensures { IfOk result (λ asked. asked ≡ serve_asked (texts words.now)) }
{
    match read_options(alloc, words)? {
        Some(options) => Ok(make_asked(options)),
        None => Ok(None),
    }
}

// What options ask for, where none is missing.
fn make_asked(options: Options) -> Option<Asked>
    ensures { result ≡ asked_by options }
{
    let Options {
        socket,
        host,
        address,
        relay,
        seed,
        peers,
    } = options;
    let socket = socket?;
    let host = host?;
    let plan = ServePlan {
        socket,
        address: address?,
        relay: relay?,
        seed: seed.unwrap_or(SEED),
        peers,
    };
    Some(Asked { host, plan })
}
