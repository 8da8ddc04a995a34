// What a tick sends for queries.
ghost use Rattle.std.specs.Prelude.{◌≡◌, ◌++◌, [], map, filter, not, IfOk, OnOk, ◌&&◌};
ghost use Rattle.std.specs.List.{list_any, flat_map};
ghost use Rattle.dns_record.specs.Records.{same};
ghost use Rattle.mdns_history.specs.Sending.{to_one};
ghost use Rattle.mdns_debts.specs.Queries.{is_to_all, records_for, replies_at, reply_unless};
ghost use Rattle.mdns_debts.specs.Releasing.{is_let_go, released_by, wanted_of};
ghost use Rattle.mdns_owing.specs.Owing.{is_probing_for, last_in, released_of};

use crate::owed::Owed;
use crate::owing::Owing;
use crate::query::Query;
use dns_message::Rrs;
use dns_record::Rr;
use mdns_base::{Dest, Host, MDNS_PORT, Moment};
use mdns_history::{Sends, Sent};
use mdns_pack::{Messages, in_order, pack_legacy, pack_plain};
use mdns_reply::Lasts;
use std::alloc::{AllocError, Global};

impl Owing {
    /// The records that go to all at `now`, in record order: what queries are owed that are due, but what was multicast less than a second
    /// ago, or a quarter where a probe asks for it, has to wait. Refused only for want of memory. (RFC 6762 6)
    #[tactic(auto, unfolding(mdns_debts::specs::Releasing::released_by))]
    pub fn released(&self, lasts: &Lasts, now: Moment) -> Result<Rrs, AllocError>
        ensures { IfOk result (λ rrs. rrs ≡ released_by (last_in lasts.now.lasts) now self.now.queries) }
    {
        let mut released = Vec::new(self.alloc);
        self.put_all_released(&mut released, lasts, now)?;
        in_order(released)
    }

    // Puts what queries that are due want to all behind others, where its last multicast lets it go.
    fn put_all_released(
        &self,
        released: &mut Vec<Rr>,
        lasts: &Lasts,
        now: Moment,
    ) -> Result<(), AllocError>
        ensures { OnOk result (released.new.items ≡ released.old.items ++ flat_map (released_of (last_in lasts.now.lasts) now self.now.queries) self.now.queries) }
    {
        let mut from = 0;
        while let Some(place) = self.deadlines.next_due(from, now.ms()) {
            self.put_released(released, lasts, now, &self.queries[place])?;
            from = place + 1;
        }
        Ok(())
    }

    // The same of one query.
    fn put_released(
        &self,
        released: &mut Vec<Rr>,
        lasts: &Lasts,
        now: Moment,
        query: &Query,
    ) -> Result<(), AllocError>
        ensures { OnOk result (released.new.items ≡ released.old.items ++ released_of (last_in lasts.now.lasts) now self.now.queries query.now) }
    {
        if query.is_due(now) {
            self.put_let_go(released, lasts, now, query.owed())?;
        }
        Ok(())
    }

    // Puts those records behind others that go to all and that their last multicast lets go.
    fn put_let_go(
        &self,
        released: &mut Vec<Rr>,
        lasts: &Lasts,
        now: Moment,
        all_owed: &[Owed],
    ) -> Result<(), AllocError>
        ensures { OnOk result (released.new.items ≡ released.old.items ++ filter (is_let_go (last_in lasts.now.lasts) now (flat_map (wanted_of now) self.now.queries)) (map (λ owed. owed.0) (filter is_to_all all_owed.now))) }
    {
        for owed in all_owed {
            if owed.is_to_all() && self.lets_go(lasts, now, &owed.rr) {
                released.push(owed.rr.copy()?)?;
            }
        }
        Ok(())
    }

    // Whether a record's last multicast lets it go: a second has passed, or a quarter where a query that is due and asks for it is a probe.
    fn lets_go(&self, lasts: &Lasts, now: Moment, rr: &Rr) -> bool
        ensures { result ≡ is_let_go (last_in lasts.now.lasts) now (flat_map (wanted_of now) self.now.queries) rr.now }
    {
        lasts.is_free(rr, now)
            || (lasts.is_free_to_defend(rr, now) && is_probed(&self.queries, now, rr))
    }

    /// Puts the replies to the askers of the queries that are due behind what else is sent, in the order of hearing: to port 5353, or in the
    /// old way to another. Refused only for want of memory. (RFC 6762 5.4 and 6.7)
    pub fn put_replies(&self, sent: &mut Sends, now: Moment) -> Result<(), AllocError>
        ensures { OnOk result (sent.new ≡ sent.old ++ flat_map (replies_at now) self.now.queries) }
    {
        let mut from = 0;
        while let Some(place) = self.deadlines.next_due(from, now.ms()) {
            put_reply(self.alloc, sent, now, &self.queries[place])?;
            from = place + 1;
        }
        Ok(())
    }
}

// Whether a probe that is due asks for a record.
fn is_probed(queries: &[Query], now: Moment, rr: &Rr) -> bool
    ensures { result ≡ list_any (is_probing_for now rr.now) queries.now }
{
    queries.iter().any(|query| query.is_due(now) && query.is_probing() && wants(query.owed(), rr))
}

// Whether a record is owed to all.
fn wants(owed: &[Owed], rr: &Rr) -> bool
    ensures { result ≡ list_any (λ one. is_to_all one && same one.0 rr.now) owed.now }
{
    owed.iter().any(|one| one.is_to_all() && one.rr.same(rr))
}

// Puts the reply to a query's asker behind what else is sent, if it is due and its asker is owed something.
fn put_reply(alloc: Global, sent: &mut Sends, now: Moment, query: &Query) -> Result<(), AllocError>
    ensures { OnOk result (sent.new ≡ sent.old ++ replies_at now query.now) }
{
    if !query.is_due(now) {
        return Ok(());
    }
    let rrs = records_for(alloc, query)?;
    if rrs.as_slice().is_empty() {
        return Ok(());
    }
    let from = *query.from();
    if from.port == MDNS_PORT {
        return send_to_one(sent, from, pack_plain(alloc, rrs.as_slice())?);
    }
    let message = pack_legacy(
        alloc,
        query.id(),
        query.questions().as_slice(),
        rrs.as_slice(),
    )?;
    sent.push(Sent {
        to: Dest::One(from),
        message,
    })?;
    Ok(())
}

// The records that a query's asker is sent, in record order.
fn records_for(alloc: Global, query: &Query) -> Result<Rrs, AllocError>
    ensures { IfOk result (λ rrs. rrs ≡ records_for query.now) }
{
    let mut rrs = Vec::new(alloc);
    for owed in query.owed() {
        if !owed.is_to_all() {
            rrs.push(owed.rr.copy()?)?;
        }
    }
    in_order(rrs)
}

// Puts messages behind others that are sent, each to one host.
fn send_to_one(sent: &mut Sends, host: Host, messages: Messages) -> Result<(), AllocError>
    ensures { OnOk result (sent.new ≡ sent.old ++ map (to_one host) messages) }
{
    for message in messages.into_vec() {
        sent.push(Sent {
            to: Dest::One(host),
            message,
        })?;
    }
    Ok(())
}
