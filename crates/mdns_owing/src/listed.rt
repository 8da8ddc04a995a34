// The answers that a query lists as known, told by record.
ghost use Rattle.std.specs.Prelude.{◌≡◌, ◌||◌, IfOk, OnOk};
ghost use Rattle.std.specs.Map.{lookup};
ghost use Rattle.dns_record.specs.declared.record.Rr.{Rr};
ghost use Rattle.dns_record.specs.Records.{same};
ghost use Rattle.mdns_history.specs.Debts.{is_struck, suppresses};
ghost use Rattle.mdns_owing.specs.Listed.{is_silenced};

use by_name::KeyedState;
use dns_record::Rr;
use indexmap::IndexMap;
use mdns_reply::Mark;
use std::alloc::{AllocError, Global};
use std::marker::Model;

/// Of each listed record the greatest TTL with which it is listed, in seconds.
type Greatest<'a> = IndexMap<Mark<'a>, u32, KeyedState>;

/// The answers that a query lists as known. Whether they silence a record is one look-up, however many there are. (RFC 6762 7.1)
#[derive(Drop)]
pub struct Listed<'a> {
    answers: &'a [Rr],
    greatest: Greatest<'a>,
}

impl<'a> Model for Listed<'a> {
    ghost use Rattle.std.specs.Prelude.{List};
    ghost use Rattle.dns_record.specs.declared.record.Rr.{Rr};
    ghost use Rattle.mdns_owing.specs.Listed.{AreOf};

    ghost Value = { List Rr };

    ghost view = { λ l. l.answers.now };

    ghost invariant = { λ l. AreOf l.answers.now l.greatest.entries };
}

impl<'a> Listed<'a> {
    /// The listed answers. Records can't be chosen to collide by who doesn't know the key. Refused only for want of memory.
    pub fn new(alloc: Global, key: u64, answers: &'a [Rr]) -> Result<Listed<'a>, AllocError>
        ensures { IfOk result (λ listed. listed ≡ answers.now) }
    {
        let mut greatest = IndexMap::with_hasher(alloc, KeyedState::new(key));
        for rr in answers {
            list(&mut greatest, rr)?;
        }
        Ok(Listed { answers, greatest })
    }

    /// Whether they silence a record: they list it with at least half of its TTL. (RFC 6762 7.1)
    pub fn silence(&self, rr: &Rr) -> bool
        ensures { result ≡ is_struck self.now rr.now }
    {
        match ttl_of(&self.greatest, rr) {
            None => false,
            Some(ttl) => u64::from(rr.ttl) <= 2 * u64::from(ttl),
        }
    }
}

// Lists one more answer.
fn list<'a>(greatest: &mut Greatest<'a>, rr: &'a Rr) -> Result<(), AllocError>
    ensures { OnOk result ((own : Rr) → is_silenced greatest.new.entries own ≡ (is_silenced greatest.old.entries own || suppresses own rr.now)) }
{
    let before = ttl_of(greatest, rr).unwrap_or(0);
    greatest.insert(Mark::sought(rr), before.max(rr.ttl))?;
    Ok(())
}

// The greatest TTL with which a record is listed, if it is.
fn ttl_of(greatest: &Greatest<'_>, rr: &Rr) -> Option<u32>
    ensures { result ≡ lookup (same rr.now) greatest.now.entries }
{
    greatest.get(&Mark::sought(rr)).copied()
}
