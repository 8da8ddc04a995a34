// The records of a walked name.
ghost use Rattle.std.specs.Prelude.{◌≡◌, ◌++◌};
ghost use Rattle.sd_answer.specs.Known.{rrs_in, rrs_of};

use mdns_happened::Walk;
use sd_answer::KnownRecords;

/// The records of a walked name before the event, held and own.
pub fn earlier_of(walk: &Walk) -> KnownRecords<'_>
    ensures { rrs_in result ≡ rrs_of walk.now.earlier.items ++ walk.now.own.earlier }
{
    KnownRecords {
        held: &walk.earlier,
        own: walk.own.earlier.as_slice(),
    }
}

/// And after it.
pub fn later_of(walk: &Walk) -> KnownRecords<'_>
    ensures { rrs_in result ≡ rrs_of walk.now.later.items ++ walk.now.own.later }
{
    KnownRecords {
        held: &walk.later,
        own: walk.own.later.as_slice(),
    }
}
