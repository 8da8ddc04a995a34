// The order of questions.
ghost use Rattle.std.specs.Prelude.{◌≡◌};
ghost use Rattle.dns_record.specs.Records.{key_cmp};

use dns_record::Key;
use std::cmp::Ordering;

/// The order of questions: by folded name, then by type.
#[tactic(auto, unfolding(dns_record::specs::Records::key_cmp))]
pub fn key_cmp(left: &Key, right: &Key) -> Ordering
    ensures { result ≡ key_cmp left.now right.now }
{
    match left.name.folded_cmp(&right.name) {
        Ordering::Equal => left.kind.cmp(&right.kind),
        unequal => unequal,
    }
}
