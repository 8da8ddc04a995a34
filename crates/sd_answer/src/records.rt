// The records that answers are made of.
use dns_record::Rr;
use mdns_history::Held;

/// The records that are known: those that are held, and those that are the daemon's own. A record may be both.
#[derive(Drop)]
pub struct KnownRecords<'a> {
    pub held: &'a [Held],
    pub own: &'a [Rr],
}
