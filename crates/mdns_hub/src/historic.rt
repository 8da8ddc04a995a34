// A daemon that stands for a history.
ghost use Rattle.std.specs.Prelude.{◌≡◌, ◌<◌, ◌≤◌, ◌^◌, [], ◌∷◌, List, false, IsTrue, IfOk, IfSome, OnOk, OnErr};
ghost use Rattle.mdns_history.specs.declared.entry.Entry.{Entry};
ghost use Rattle.mdns_history.specs.Fitting.{Fits, boot_entry, is_boot, is_host_label};
ghost use Rattle.mdns_core.specs.InForce.{in_force};
ghost use Rattle.mdns_core.specs.State.{Stands, due_of};

use mdns_base::Moment;
use mdns_cache::Steps;
use mdns_core::Daemon;
use mdns_happened::When;
use mdns_history::{Config, Entry, Event};
use std::alloc::{AllocError, Global};
use std::marker::Model;
use std::sync::ledger::Ledger;

/// A daemon that stands for a history: that of its boot and of each event since.
#[derive(Drop)]
pub(crate) struct Standing {
    daemon: Daemon,
}

impl Model for Standing {
    ghost use Rattle.mdns_core.specs.State.{State};
    ghost use Rattle.mdns_hub.specs.Standing.{IsStanding};

    ghost Value = { State };

    ghost view = { λ s. s.daemon };

    ghost invariant = { λ s. IsStanding s.daemon };
}

impl Standing {
    /// A daemon at its first moment `now`, in milliseconds, and the entry of its boot, the first of its history. Refused only for want
    /// of memory.
    pub fn new(
        alloc: Global,
        config: Config,
        now: Moment,
        word: u32,
    ) -> Result<(Standing, Entry), AllocError>
        requires host { IsTrue (is_host_label config.host) }
        ensures entry { IfOk result (λ made. made.1 ≡ boot_entry now word config) }
        ensures stands { IfOk result (λ made. Stands made.0 (made.1 ∷ [])) }
        ensures last { IfOk result (λ made. made.0.last ≡ now) }
    {
        let (daemon, entry) = Daemon::new(alloc, config, When::new(now, word))?;
        Ok((Standing { daemon }, entry))
    }

    /// When something of it is due, in milliseconds.
    pub fn next_due(&self) -> Option<u64>
        ensures { result ≡ due_of self.now }
    {
        self.daemon.next_due()
    }

    /// One event at `now`, in milliseconds, with a random word, and its entry. Refused only for want of memory; then the daemon is
    /// as before.
    pub fn step<L: Ledger>(
        &mut self,
        now: Moment,
        word: u32,
        event: Event,
        steps: &mut Steps<L>,
    ) -> Result<Entry, AllocError>
        requires later { self.old.last ≤ now }
        requires no_boot { is_boot event ≡ false }

        ensures is { IfOk result (λ entry. (entry.moment ≡ now) × (entry.word ≡ word) × (entry.event ≡ event)) }
        ensures fits { IfOk result (λ entry. (history : List Entry) → Stands self.old history
            → Fits in_force entry history × Stands self.new (entry ∷ history)) }
        ensures last { OnOk result (self.new.last ≡ now) }
        ensures ticked { OnOk result (event ≡ Event.Tick → IfSome (due_of self.new) (λ due. now < due)) }
        ensures err { OnErr result (self.new ≡ self.old) }
    {
        self.daemon.step(When::new(now, word), event, steps)
    }
}
