// Records as queries list them, and records laid out as these.
ghost use Rattle.std.specs.Prelude.{◌≡◌, map, IfOk};
ghost use Rattle.std.specs.List.{list_any};
ghost use Rattle.dns_record.specs.Records.{record_cmp, matches};
ghost use Rattle.mdns_pack.specs.Listing.{unlisted};

use dns_message::{Message, Rrs};
use dns_record::{Key, Rr, matches_any, record_cmp};
use std::alloc::{AllocError, Global};
use std::cmp::Ordering;
use std::marker::Model;

/// A record as a query lists it: with a flush bit and a TTL that may be others than its own. The record is borrowed, so that
/// it is copied only into a message. (RFC 6762 7.1)
#[derive(Drop)]
pub struct Listing<'a> {
    rr: &'a Rr,
    flush: bool,
    ttl: u32,
}

impl<'a> Model for Listing<'a> {
    ghost use Rattle.dns_record.specs.declared.record.Rr.{Rr};

    ghost Value = { Rr };

    ghost view = { λ l. record { owner = l.rr.now.owner; flush = l.flush; ttl = l.ttl; rdata = l.rr.now.rdata } };
}

impl<'a> Listing<'a> {
    /// A record with this flush bit and this TTL.
    pub fn new(rr: &'a Rr, flush: bool, ttl: u32) -> Self
        ensures { result ≡ record rr.now { flush = flush; ttl = ttl } }
    {
        Listing { rr, flush, ttl }
    }

    /// An equal listing of the same record.
    pub(crate) fn again(&self) -> Listing<'_>
        ensures { result ≡ self.now }
    {
        Listing {
            rr: self.rr,
            flush: self.flush,
            ttl: self.ttl,
        }
    }

    /// The record with its own flush bit and TTL.
    pub(crate) fn record(&self) -> &Rr
        ensures { unlisted result.now ≡ unlisted self.now }
    {
        self.rr
    }

    /// Record order.
    #[tactic(auto, unfolding(dns_record::specs::Records::record_cmp))]
    pub(crate) fn record_cmp(&self, other: &Listing<'_>) -> Ordering
        ensures { result ≡ record_cmp self.now other.now }
    {
        record_cmp(self.rr, other.rr)
    }

    /// Whether one of the questions asks for the record.
    #[tactic(auto, unfolding(dns_record::specs::Records::matches))]
    pub(crate) fn matches_any(&self, keys: &[Key]) -> bool
        ensures { result ≡ list_any (λ key. matches key self.now) keys.now }
    {
        matches_any(keys, self.rr)
    }

    // Gives a record that is alike the flush bit and the TTL.
    fn lay_onto(&self, rr: &mut Rr)
        requires { unlisted rr.old ≡ unlisted self.now }
        ensures { rr.new ≡ self.now }
    {
        rr.flush = self.flush;
        rr.ttl = self.ttl;
    }
}

/// Records listed as they are.
pub(crate) fn listings_of<'a>(
    alloc: Global,
    records: &'a [Rr],
) -> Result<Vec<Listing<'a>>, AllocError>
    ensures { IfOk result (λ listings. listings.items ≡ records.now) }
{
    let mut listings = Vec::with_capacity(alloc, records.len())?;
    for rr in records {
        listings.push(Listing::new(rr, rr.flush, rr.ttl))?;
    }
    Ok(listings)
}

/// A message whose answers get the flush bits and TTLs of these listings, of which there is one for each.
pub(crate) fn laid_out(message: Message, listings: &[Listing<'_>]) -> Message
    requires { map unlisted message.answers ≡ map unlisted listings.now }
    ensures { result ≡ record message { answers = listings.now } }
{
    let mut laid = message;
    laid.answers = lay_over(laid.answers, listings);
    laid
}

// The records with the flush bits and TTLs of listings.
fn lay_over(records: Rrs, listings: &[Listing<'_>]) -> Rrs
    requires { map unlisted records ≡ map unlisted listings.now }
    ensures { result ≡ listings.now }
{
    let mut records = records.into_vec();
    lay_all(records.as_mut_slice(), listings);
    Rrs::from_vec(records)
}

fn lay_all(records: &mut [Rr], listings: &[Listing<'_>])
    requires { map unlisted records.old ≡ map unlisted listings.now }
    ensures { records.new ≡ listings.now }
{
    for place in 0..listings.len() {
        listings[place].lay_onto(&mut records[place]);
    }
}
