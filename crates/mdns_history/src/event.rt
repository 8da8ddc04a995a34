// What happens to a daemon.
use crate::Config;
use bytes::Bytes;
use mdns_base::Host;
use sd_call::Request;

/// What happens to a daemon.
#[derive(Drop)]
pub enum Event {
    /// It starts.
    Boot {
        config: Config,
    },
    /// A client opens a session.
    Attach,
    /// A session ends.
    Detach {
        session: u64,
    },
    /// A client asks for something, under a number of its choice for the operation.
    Call {
        session: u64,
        op: u32,
        request: Request,
    },
    /// A packet comes in.
    Hear {
        from: Host,
        bytes: Bytes,
    },
    /// Time has passed.
    Tick,
    /// A client takes items from its session's queue, at most `max` of them.
    Take {
        session: u64,
        max: u32,
    },
}
