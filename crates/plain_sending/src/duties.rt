// The duties of a daemon.
use std::marker::Model;

/// The duties that a daemon has: to ask questions, to claim names, to announce what is claimed, and to reply to queries. (RFC 6762
/// 5, 8.1, 8.3 and 6)
#[derive(Drop)]
pub struct DaemonDuties {
    pub asking: bool,
    pub claiming: bool,
    pub announcing: bool,
    pub replying: bool,
}

impl Model for DaemonDuties {
    ghost use Rattle.mdns_history.specs.InForce.{Duties};

    ghost Value = { Duties };

    ghost view = { λ a. record { asking = a.asking; claiming = a.claiming; announcing = a.announcing; replying = a.replying } };
}
