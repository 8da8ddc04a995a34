// Running up to a moment: the packets that are heard and the ticks that are due, one after another.
ghost use Rattle.std.specs.Prelude.{ℕ, ◌≡◌, ◌≢◌, ◌<◌, ◌≤◌, ◌+◌, ◌^◌, max, take, true, false, Some, Err, IfSome, OnOk, OnErr};
ghost use Rattle.std.specs.Option.{option_map};
ghost use Rattle.std.specs.Io.KnownBytes.{Appends};
ghost use Rattle.mdns_history.specs.EntryText.{entry_text};
ghost use Rattle.mdns_history.specs.Fitting.{is_boot};
ghost use Rattle.mdns_hub.specs.Slots.{is_kept, due_at, AreOver};
ghost use Rattle.mdns_hub.specs.Order.{AreFit, early_count};
ghost use Rattle.mdns_hub.specs.Output.{HasWriteCause, OrNothing};

use crate::HubError;
use crate::hub::Hub;
use crate::steps::put_entry;
use mdns_base::{Moment, Sink};
use mdns_core::steps_follow_the_history;
use mdns_history::{Entry, Event};

impl Hub {
    ghost use Rattle.mdns_hub.specs.Plays.{AreSomeDone, RunsTo};
    ghost use Rattle.mdns_hub.specs.Hubs.{Advances, BreaksIn};
    ghost use Rattle.mdns_hub.specs.Running.{HappensAt, ComesFrom, is_over, IsFollowed};

    /// Does all that is due up to a moment, in milliseconds, which is the current one then.
    pub(crate) fn run_to<K: Sink>(&mut self, until: Moment, output: &mut K) -> Result<(), HubError>
        requires later { self.old.clock ≤ until }

        ensures done { OnOk result (Advances (RunsTo until) self.old self.new (K.held output.old) (K.held output.new)) }
        ensures part { OnErr result (BreaksIn (AreSomeDone until) self.old (K.held output.old) (K.held output.new)) }
        ensures cause { HasWriteCause (K.faults output.old) (K.faults output.new) result }
        ensures good { result ≡ Err HubError.BadCommand → ⊥ }
    {
        steps_follow_the_history();
        let mut next = self.next_moment();
        'moments: while let Some(moment) = next {
            if moment > until.ms() {
                break;
            }
            self.pass(Moment::new(moment), output)?;
            next = self.next_moment();
        }
        self.clock = until;
        Ok(())
    }

    // The first moment, from the current one on, at which a packet is heard or something of a daemon is due, in milliseconds.
    fn next_moment(&self) -> Option<u64>
        ensures from { IfSome result (λ first. self.now.clock ≤ first) }
        ensures least { (moment : ℕ) → ComesFrom moment self.now → IfSome result (λ first. moment ≤ first) }
        ensures first { (moment : ℕ) → self.now.clock ≤ moment → IfSome result (λ first. moment ≤ first) → ComesFrom moment self.now }
    {
        let mut first = self.link.first_moment();
        for number in 0..17u32 {
            let due = self.due_from_now(number);
            first = earlier(first, due);
        }
        first
    }

    // When something of a daemon is due, which is now where it was due before.
    fn due_from_now(&self, number: u32) -> Option<u64>
        ensures { result ≡ option_map (λ due. max due self.now.clock) (due_at self.now.daemons.slots.items number) }
    {
        match self.daemons.next_due(number) {
            Some(due) => Some(due.max(self.clock.ms())),
            None => None,
        }
    }

    // Does all that is due at a moment, before which nothing is: first the packets, then the ticks.
    fn pass<K: Sink>(&mut self, moment: Moment, output: &mut K) -> Result<(), HubError>
        requires later { self.old.clock ≤ moment }
        requires first { ComesFrom moment self.old }

        ensures done { OnOk result (Advances (AreSomeDone moment) self.old self.new (K.held output.old) (K.held output.new)) }
        ensures over { OnOk result (ComesFrom (moment + 1) self.new) }
        ensures clock { OnOk result (self.new.clock ≤ moment) }
        ensures part { OnErr result (BreaksIn (AreSomeDone moment) self.old (K.held output.old) (K.held output.new)) }
        ensures cause { HasWriteCause (K.faults output.old) (K.faults output.new) result }
        ensures good { result ≡ Err HubError.BadCommand → ⊥ }
    {
        self.hear_all(moment, output)?;
        self.tick_all(moment, output)
    }

    // Lets the daemons hear the packets of a moment.
    fn hear_all<K: Sink>(&mut self, moment: Moment, output: &mut K) -> Result<(), HubError>
        requires later { self.old.clock ≤ moment }
        requires first { ComesFrom moment self.old }

        ensures done { OnOk result (Advances (AreSomeDone moment) self.old self.new (K.held output.old) (K.held output.new)) }
        ensures first { OnOk result (ComesFrom moment self.new) }
        ensures heard { OnOk result (AreFit (moment + 1) (is_kept self.new.daemons.slots.items) self.new.link.under_way.items) }
        ensures clock { OnOk result (self.new.clock ≤ moment) }
        ensures part { OnErr result (BreaksIn (AreSomeDone moment) self.old (K.held output.old) (K.held output.new)) }
        ensures cause { HasWriteCause (K.faults output.old) (K.faults output.new) result }
        ensures good { result ≡ Err HubError.BadCommand → ⊥ }
    {
        steps_follow_the_history();
        'packets: while let Some(delivery) = self.link.take_by(moment) {
            let event = Event::Hear {
                from: delivery.from,
                bytes: delivery.bytes,
            };
            self.happen(delivery.daemon, moment, event, output)?;
        }
        Ok(())
    }

    // Lets the ticks of a moment happen.
    fn tick_all<K: Sink>(&mut self, moment: Moment, output: &mut K) -> Result<(), HubError>
        requires later { self.old.clock ≤ moment }
        requires first { ComesFrom moment self.old }
        requires heard { AreFit (moment + 1) (is_kept self.old.daemons.slots.items) self.old.link.under_way.items }

        ensures done { OnOk result (Advances (AreSomeDone moment) self.old self.new (K.held output.old) (K.held output.new)) }
        ensures over { OnOk result (ComesFrom (moment + 1) self.new) }
        ensures clock { OnOk result (self.new.clock ≤ moment) }
        ensures part { OnErr result (BreaksIn (AreSomeDone moment) self.old (K.held output.old) (K.held output.new)) }
        ensures cause { HasWriteCause (K.faults output.old) (K.faults output.new) result }
        ensures good { result ≡ Err HubError.BadCommand → ⊥ }
    {
        for number in 0..17u32 {
            self.tick(number, moment, output)?;
        }
        Ok(())
    }

    // Lets the tick of a daemon happen at a moment by which the ticks of lower numbers have, where it is due.
    fn tick<K: Sink>(&mut self, number: u32, moment: Moment, output: &mut K) -> Result<(), HubError>
        requires later { self.old.clock ≤ moment }
        requires first { ComesFrom moment self.old }
        requires heard { AreFit (moment + 1) (is_kept self.old.daemons.slots.items) self.old.link.under_way.items }
        requires lower { AreOver number moment self.old.daemons.slots.items }

        ensures done { OnOk result (Advances (AreSomeDone moment) self.old self.new (K.held output.old) (K.held output.new)) }
        ensures first { OnOk result (ComesFrom moment self.new) }
        ensures heard { OnOk result (AreFit (moment + 1) (is_kept self.new.daemons.slots.items) self.new.link.under_way.items) }
        ensures over { OnOk result (AreOver (number + 1) moment self.new.daemons.slots.items) }
        ensures clock { OnOk result (self.new.clock ≤ moment) }
        ensures part { OnErr result (BreaksIn (AreSomeDone moment) self.old (K.held output.old) (K.held output.new)) }
        ensures cause { HasWriteCause (K.faults output.old) (K.faults output.new) result }
        ensures good { result ≡ Err HubError.BadCommand → ⊥ }
    {
        steps_follow_the_history();
        if !self.is_due(number, moment) {
            return Ok(());
        }
        self.happen(number, moment, Event::Tick, output)
    }

    // Whether something of a daemon is due by a moment.
    fn is_due(&self, number: u32, moment: Moment) -> bool
        ensures { result ≡ is_over moment (due_at self.now.daemons.slots.items number) }
    {
        match self.daemons.next_due(number) {
            Some(due) => due <= moment.ms(),
            None => false,
        }
    }

    /// An event of a daemon at a moment, in milliseconds, which is the current one then: the print of its entry is put, and what it sends
    /// is under way.
    pub(crate) fn happen<K: Sink>(
        &mut self,
        number: u32,
        moment: Moment,
        event: Event,
        output: &mut K,
    ) -> Result<(), HubError>
        requires kept { is_kept self.old.daemons.slots.items number ≡ true }
        requires no_boot { is_boot event ≡ false }
        requires later { self.old.clock ≤ moment }
        requires fit { AreFit moment (is_kept self.old.daemons.slots.items) self.old.link.under_way.items }

        ensures done { OnOk result (Advances (HappensAt number event moment) self.old self.new (K.held output.old) (K.held output.new)) }
        ensures clock { OnOk result (self.new.clock ≡ moment) }
        ensures others { OnOk result ((other : ℕ) → (other ≡ number → ⊥)
            → due_at self.new.daemons.slots.items other ≡ due_at self.old.daemons.slots.items other) }
        ensures ticked { OnOk result (event ≡ Event.Tick → IfSome (due_at self.new.daemons.slots.items number) (λ due. moment < due)) }
        ensures fit { OnOk result (AreFit (moment + 1) (is_kept self.old.daemons.slots.items) self.old.link.under_way.items
            → AreFit (moment + 1) (is_kept self.new.daemons.slots.items) self.new.link.under_way.items) }
        ensures early { OnOk result (early_count moment self.new.link.under_way.items ≡ early_count moment self.old.link.under_way.items) }
        ensures part { OnErr result (BreaksIn (OrNothing (HappensAt number event moment)) self.old (K.held output.old) (K.held output.new)) }
        ensures cause { HasWriteCause (K.faults output.old) (K.faults output.new) result }
        ensures good { result ≡ Err HubError.BadCommand → ⊥ }
    {
        self.clock = moment;
        let word = self.words.take();
        let entry = self.daemons.step(number, moment, word, event)?;
        self.follow(number, &entry, output)?;
        Ok(())
    }

    // Puts the print of an entry, and lets what it sends be under way.
    fn follow<K: Sink>(
        &mut self,
        number: u32,
        entry: &Entry,
        output: &mut K,
    ) -> Result<(), HubError>
        ensures done { OnOk result (IsFollowed number entry.now self.old self.new (K.held output.old) (K.held output.new)) }
        ensures part { OnErr result ((n : ℕ) × Appends (K.held output.old) (K.held output.new) (take n (entry_text number entry.now))) }
        ensures cause { HasWriteCause (K.faults output.old) (K.faults output.new) result }
        ensures good { result ≡ Err HubError.BadCommand → ⊥ }
    {
        put_entry(self.alloc, number, entry, output)?;
        self.link
            .send_all(&self.daemons, self.clock, number, entry.sent.as_slice())?;
        Ok(())
    }
}

// The earlier of two moments that may be there.
fn earlier(one: Option<u64>, other: Option<u64>) -> Option<u64>
    ensures both { (moment : ℕ) → IfSome result (λ first. moment ≤ first) → IfSome one (λ first. moment ≤ first) × IfSome other (λ first. moment ≤ first) }
    ensures from { (moment : ℕ) → IfSome one (λ first. moment ≤ first) → IfSome other (λ first. moment ≤ first) → IfSome result (λ first. moment ≤ first) }
{
    match (one, other) {
        (Some(one), Some(other)) => Some(one.min(other)),
        (Some(one), None) => Some(one),
        (None, other) => other,
    }
}
