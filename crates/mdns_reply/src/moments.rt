// When records were last multicast, by record.
ghost use Rattle.std.specs.Prelude.{◌≡◌, ℕ, ◌+◌, ◌<◌, ◌≤◌, List, length, filter, None, Some, if◌then◌else◌};
ghost use Rattle.indexmap.specs.IndexMap.{spare};
ghost use Rattle.dns_record.specs.declared.record.Rr.{Rr};
ghost use Rattle.dns_record.specs.Records.{same};
ghost use Rattle.mdns_history.specs.Debts.{is_multicast, is_goodbye};
ghost use Rattle.mdns_reply.specs.Lasts.{Last, last_of, is_kept};

use crate::mark::Mark;
use by_name::KeyedState;
use dns_record::Rr;
use indexmap::IndexMap;
use mdns_base::Moment;

/// For how long a last multicast is kept, in ms: a quarter of the greatest TTL that own records have.
pub const KEPT_TIME: u64 = 1_125_000;

// A record that is kept.
type Kept = Mark<'static>;

/// The moments of the last multicasts, by record.
pub type Moments = IndexMap<Kept, Moment, KeyedState>;

/// Notes what is sent at a moment, where there is room: the records with TTL 0 are taken out, and then each with another TTL has
/// this moment.
pub fn note_all(moments: &mut Moments, now: Moment, sent: Vec<Rr>)
    requires room { length sent.items ≤ spare moments.old }
    ensures lasts { (rr : Rr) → last_of rr moments.new.entries
        ≡ (if is_multicast rr sent.items then Some now else if is_goodbye rr sent.items then None else last_of rr moments.old.entries) }
    ensures room { spare moments.old ≤ spare moments.new + length sent.items }
{
    take_back(moments, sent.as_slice());
    note(moments, now, sent);
}

// Takes out the records that are sent with TTL 0.
fn take_back(moments: &mut Moments, sent: &[Rr])
    ensures lasts { (rr : Rr) → last_of rr moments.new.entries ≡ (if is_goodbye rr sent.now then None else last_of rr moments.old.entries) }
    ensures room { spare moments.old ≤ spare moments.new }
{
    for rr in sent {
        if rr.ttl == 0 {
            take_out(moments, rr);
        }
    }
}

// Takes out the record that is the same as this one, if there is one.
fn take_out(moments: &mut Moments, rr: &Rr)
    ensures lasts { (other : Rr) → last_of other moments.new.entries ≡ (if same rr.now other then None else last_of other moments.old.entries) }
    ensures room { spare moments.old ≤ spare moments.new }
{
    if let Some(index) = moments.get_index_of(&Mark::sought(rr)) {
        let _ = moments.swap_remove_index(index);
    }
}

// Notes the moment of the records that are sent with a TTL above 0, where there is room for them.
fn note(moments: &mut Moments, now: Moment, mut sent: Vec<Rr>)
    requires room { length sent.items ≤ spare moments.old }
    ensures lasts { (rr : Rr) → last_of rr moments.new.entries ≡ (if is_multicast rr sent.items then Some now else last_of rr moments.old.entries) }
    ensures room { spare moments.old ≤ spare moments.new + length sent.items }
{
    while let Some(rr) = sent.pop() {
        if rr.ttl > 0 {
            put(moments, now, rr);
        }
    }
}

// Gives a record a moment, where there is room for one more.
fn put(moments: &mut Moments, now: Moment, rr: Rr)
    requires room { 0 < spare moments.old }
    ensures lasts { (other : Rr) → last_of other moments.new.entries ≡ (if same rr other then Some now else last_of other moments.old.entries) }
    ensures room { spare moments.old ≤ spare moments.new + 1 }
{
    let _ = moments.insert(Mark::kept(rr), now);
}

/// Forgets the moments that are so long ago that nobody can tell, and gives back the room that is left beyond as much again.
pub fn forget_old(moments: &mut Moments, now: Moment)
    ensures { moments.new.entries ≡ filter (λ (one : Last). is_kept now one.1) moments.old.entries }
{
    moments.retain(
        |_mark: &Kept, moment: &mut Moment| -> bool
            ensures { (result ≡ is_kept now moment.old) × (moment.new ≡ moment.old) }
        { now.ms().saturating_sub(moment.ms()) <= KEPT_TIME },
    );
    let twice = moments.len().saturating_mul(2);
    moments.shrink_to(twice);
}
