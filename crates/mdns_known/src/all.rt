// The known answers of several questions.
ghost use Rattle.std.specs.Prelude.{◌≡◌, ◌≤◌, ◌^◌, IfOk};
ghost use Rattle.std.specs.List.{All};
ghost use Rattle.mdns_known.specs.Known.{all_known_of};

use crate::known::put_known_answers;
use dns_message::Rrs;
use dns_record::Key;
use mdns_base::Moment;
use mdns_history::Held;
use mdns_pack::in_order;
use std::alloc::{AllocError, Global};

/// The known answers of several questions at `now`, in ms: those of each of them, as `known_answers` has them, each once and
/// in record order. Nothing held may have been heard after `now`. Refused only for want of memory. (RFC 6762 7.1)
pub fn all_known_answers(
    alloc: Global,
    questions: &[Key],
    held: &[Held],
    now: Moment,
) -> Result<Rrs, AllocError>
    requires heard { All (λ one. one.heard ≤ now) held.now }
    ensures { IfOk result (λ known. known ≡ all_known_of questions.now held.now now) }
{
    let mut all = Vec::new(alloc);
    for question in questions {
        put_known_answers(alloc, &mut all, question, held, now)?;
    }
    in_order(all)
}
