// Which listed records silence a reply.
ghost use Rattle.std.specs.Prelude.{◌≡◌};
ghost use Rattle.mdns_history.specs.Debts.{is_struck, suppresses};

use dns_record::Rr;

/// Whether a listed answer silences one's own record: it is the same, and has at least half of the true TTL. (RFC 6762 7.1)
pub fn suppresses(listed: &Rr, own: &Rr) -> bool
    ensures { result ≡ suppresses own.now listed.now }
{
    own.same(listed) && u64::from(own.ttl) <= 2 * u64::from(listed.ttl)
}

/// Whether listed answers silence one's own record. (RFC 6762 7.1)
pub fn is_struck(answers: &[Rr], own: &Rr) -> bool
    ensures { result ≡ is_struck answers.now own.now }
{
    answers.iter().any(|listed| suppresses(listed, own))
}
