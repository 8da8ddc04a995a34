// Messages that are sent.
use crate::{Same, all_same};
use mdns_base::Dest;
use mdns_history::{Sends, Sent};

impl Same for Dest {
    fn same_as(&self, other: &Dest) -> bool {
        match (self, other) {
            (Dest::All, Dest::All) => true,
            (Dest::One(host), Dest::One(its)) => host.ip == its.ip && host.port == its.port,
            _ => false,
        }
    }
}

impl Same for Sent {
    fn same_as(&self, other: &Sent) -> bool {
        self.to.same_as(&other.to) && self.message.same_as(&other.message)
    }
}

impl Same for Sends {
    fn same_as(&self, other: &Sends) -> bool {
        all_same(self.as_slice(), other.as_slice())
    }
}
