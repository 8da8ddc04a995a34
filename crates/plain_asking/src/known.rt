// The known answers of questions. (RFC 6762 7.1)
ghost use Rattle.std.specs.Prelude.{◌≡◌, true, IfOk};
ghost use Rattle.mdns_history.specs.Asking.{known_answers};
ghost use Rattle.plain_history.specs.Last.{are_by};

use dns_message::Rrs;
use dns_record::Key;
use mdns_base::Moment;
use plain_history::{HistoryEntry, live_records};
use std::alloc::{AllocError, Global};

/// Whether no entry is later than a moment.
pub fn are_by(moment: Moment, history: &[HistoryEntry]) -> bool
    ensures { result ≡ are_by moment history.now }
{
    history
        .iter()
        .all(|entry| entry.moment().ms() <= moment.ms())
}

/// The known answers of a question at a moment, in record order, as a query lists them: without the flush bit, with the
/// seconds that are left. No entry may be later than the moment. Refused only for want of memory.
#[tactic(auto, using(crate::proofs::HeardBy::heard_by, crate::proofs::HeardBy::known_over))]
pub fn known_answers(
    alloc: Global,
    question: &Key,
    history: &[HistoryEntry],
    moment: Moment,
) -> Result<Rrs, AllocError>
    requires { are_by moment history.now ≡ true }
    ensures { IfOk result (λ known. known ≡ known_answers question.now history.now moment) }
{
    let live = live_records(alloc, history, moment)?;
    let known = mdns_known::known_answers(alloc, question, &live, moment)?;
    Ok(known)
}
