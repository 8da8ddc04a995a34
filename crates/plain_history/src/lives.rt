// How long records live, and which are live at a moment. (RFC 6762 10, 10.1 and 10.2)
ghost use Rattle.std.specs.Prelude.{◌≡◌, ℕ, true, ◌≤◌, ◌^◌, ◌&&◌, ◌+◌, ◌++◌, ◌∷◌, [], nat_lt, not, IfOk, OnOk, if◌then◌else◌};
ghost use Rattle.std.specs.List.{list_any};
ghost use Rattle.lists.specs.Lists.{until};
ghost use Rattle.plain_history.specs.Kept.{kept_if};
ghost use Rattle.plain_history.specs.Last.{are_by, are_held_by, is_last_renewal};
ghost use Rattle.mdns_history.specs.Lifetimes.{renews, takes_back, flushes, cuts, end_from, held_from, is_live_at, live_of, live_records};

use crate::HistoryEntry;
use crate::hearing::{HeardRecord, hearings};
use dns_record::Rr;
use mdns_base::Moment;
use mdns_history::Held;
use std::alloc::{AllocError, Global};

// Whether a hearing is of the record, with a TTL above 0.
fn renews(rr: &Rr, hearing: &HeardRecord) -> bool
    ensures { result ≡ renews rr.now hearing.now }
{
    rr.same(&hearing.rr) && hearing.rr.ttl > 0
}

// Whether a hearing is a goodbye of the record.
fn takes_back(rr: &Rr, hearing: &HeardRecord) -> bool
    ensures { result ≡ takes_back rr.now hearing.now }
{
    rr.same(&hearing.rr) && hearing.rr.ttl == 0
}

// Whether a hearing has the flush bit, and the record's owner and type.
fn flushes(rr: &Rr, hearing: &HeardRecord) -> bool
    ensures { result ≡ flushes rr.now hearing.now }
{
    hearing.rr.flush
        && rr.owner.folded_eq(&hearing.rr.owner)
        && rr.rdata.kind() == hearing.rr.rdata.kind()
}

// Whether a hearing cuts the life that a renewal gave to a second.
fn cuts(rr: &Rr, renewed: Moment, hearing: &HeardRecord) -> bool
    ensures { result ≡ cuts rr.now renewed hearing.now }
{
    takes_back(rr, hearing) || (flushes(rr, hearing) && renewed.ms() + 1000 < hearing.moment.ms())
}

// The end of the record of a renewal: that of its TTL, or a second behind an earlier hearing after it that cuts its life.
fn end_of(heard: &[HeardRecord], renewal: &HeardRecord) -> u64
    ensures { result ≡ end_from renewal.now.rr (until (renews renewal.now.rr) heard.now) renewal.now }
{
    let mut end = renewal.moment.ms() + renewal.rr.ttl_ms();
    for hearing in heard {
        if renews(&renewal.rr, hearing) {
            return end;
        }
        end = end.min(cut_end(renewal, hearing, end));
    }
    end
}

// A second behind a hearing that cuts the life of a renewal's record, and else the given end.
fn cut_end(renewal: &HeardRecord, hearing: &HeardRecord, end: u64) -> u64
    ensures { result ≡ (if cuts renewal.now.rr renewal.now.moment hearing.now then hearing.now.moment + 1000 else end) }
{
    if cuts(&renewal.rr, renewal.moment, hearing) {
        hearing.moment.ms() + 1000
    } else {
        end
    }
}

// The record of a renewal, with its end.
fn held_from(heard: &[HeardRecord], renewal: &HeardRecord) -> Result<Held, AllocError>
    ensures { IfOk result (λ held. held ≡ held_from heard.now renewal.now) }
{
    Ok(Held {
        rr: renewal.rr.share()?,
        heard: renewal.moment,
        word: renewal.word,
        end: end_of(heard, renewal),
    })
}

/// The records that are live at a moment, the last renewed first, by the hearings, of which the last stands first. Refused only
/// for want of memory.
#[tactic(auto, unfolding(mdns_history::specs::Lifetimes::live_of))]
pub fn live_of(
    alloc: Global,
    heard: &[HeardRecord],
    moment: Moment,
) -> Result<Vec<Held>, AllocError>
    ensures { IfOk result (λ live. live.items ≡ live_of heard.now moment) }
{
    let mut live = Vec::new(alloc);
    for (place, renewal) in heard.iter().enumerate() {
        put_live(&mut live, moment, heard, &heard[..place], renewal)?;
    }
    Ok(live)
}

// Whether a hearing is the last renewal of its record, where these are the later hearings.
fn is_last_renewal(later: &[HeardRecord], hearing: &HeardRecord) -> bool
    ensures { result ≡ is_last_renewal later.now hearing.now }
{
    hearing.rr.ttl > 0 && !is_renewed(&hearing.rr, later)
}

// Whether one of the hearings renews the record.
fn is_renewed(rr: &Rr, heard: &[HeardRecord]) -> bool
    ensures { result ≡ list_any (renews rr.now) heard.now }
{
    heard.iter().any(|hearing| renews(rr, hearing))
}

// Puts the record of a hearing behind others, where the hearing is its last renewal and it is live.
fn put_live(
    live: &mut Vec<Held>,
    moment: Moment,
    heard: &[HeardRecord],
    later: &[HeardRecord],
    hearing: &HeardRecord,
) -> Result<(), AllocError>
    ensures { OnOk result (live.new.items ≡ live.old.items
        ++ kept_if (is_last_renewal later.now hearing.now && is_live_at moment (held_from heard.now hearing.now)) (held_from heard.now hearing.now)) }
{
    if !is_last_renewal(later, hearing) {
        return Ok(());
    }
    let held = held_from(heard, hearing)?;
    if held.is_live(moment) {
        live.push(held)?;
    }
    Ok(())
}

/// The records that are live at a moment in a history, the last renewed first. Refused only for want of memory.
#[tactic(auto, unfolding(mdns_history::specs::Lifetimes::live_records))]
pub fn live_records(
    alloc: Global,
    history: &[HistoryEntry],
    moment: Moment,
) -> Result<Vec<Held>, AllocError>
    ensures value { IfOk result (λ live. live.items ≡ live_records history.now moment) }
    // Where no entry is later than a limit, no live record was renewed later.
    ensures by { IfOk result (λ live. (limit : ℕ) → are_by limit history.now ≡ true → are_held_by limit live.items ≡ true) }
{
    let heard = hearings(alloc, history)?;
    let live = live_of(alloc, &heard, moment)?;
    Ok(live)
}
