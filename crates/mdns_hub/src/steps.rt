// A step of one daemon, and the print of its entry.
ghost use Rattle.std.specs.Prelude.{ℕ, ◌≡◌, ◌<◌, ◌≤◌, ◌^◌, ◌∷◌, List, take, false, Err, IfOk, IfSome, OnOk, OnErr};
ghost use Rattle.std.specs.Io.KnownBytes.{Appends};
ghost use Rattle.mdns_history.specs.declared.entry.Entry.{Entry};
ghost use Rattle.mdns_history.specs.EntryText.{entry_text};
ghost use Rattle.mdns_core.specs.InForce.{in_force};
ghost use Rattle.mdns_history.specs.Fitting.{Fits, is_boot};
ghost use Rattle.mdns_core.specs.State.{Stands, due_of};
ghost use Rattle.mdns_hub.specs.Output.{HasWriteCause};

use crate::HubError;
use crate::historic::Standing;
use mdns_base::{Moment, Sink};
use mdns_cache::Steps;
use mdns_history::{Entry, Event, print_entry};
use std::alloc::{AllocError, Global};
use std::sync::ledger::{Blank, Ledger};

/// Puts the print of an entry.
pub fn put_entry<K: Sink>(
    alloc: Global,
    number: u32,
    entry: &Entry,
    output: &mut K,
) -> Result<(), HubError>
    ensures text { OnOk result (Appends (K.held output.old) (K.held output.new) (entry_text number entry.now)) }
    ensures part { OnErr result ((n : ℕ)
        × Appends (K.held output.old) (K.held output.new) (take n (entry_text number entry.now))) }
    ensures cause { HasWriteCause (K.faults output.old) (K.faults output.new) result }
    ensures good { result ≡ Err HubError.BadCommand → ⊥ }
{
    let text = print_entry(alloc, number, entry)?;
    match output.put(text.as_slice()) {
        Ok(()) => Ok(()),
        Err(_) => Err(HubError::WriteFault),
    }
}

/// One event of a daemon at `now`, in milliseconds, and its entry. Its steps are counted from nothing. Refused only for want of
/// memory; then the daemon is as before.
pub(crate) fn entry_of<L: Ledger>(
    daemon: &mut Standing,
    now: Moment,
    word: u32,
    event: Event,
    blank: Blank,
) -> Result<Entry, AllocError>
    requires name { blank.name ≡ L.name }
    requires parts { blank.parts ≡ L.parts }
    requires some { 0 < L.parts }
    requires later { daemon.old.last ≤ now }
    requires no_boot { is_boot event ≡ false }

    ensures is { IfOk result (λ entry. (entry.moment ≡ now) × (entry.word ≡ word) × (entry.event ≡ event)) }
    ensures fits { IfOk result (λ entry. (history : List Entry) → Stands daemon.old history
        → Fits in_force entry history × Stands daemon.new (entry ∷ history)) }
    ensures last { OnOk result (daemon.new.last ≡ now) }
    ensures ticked { OnOk result (event ≡ Event.Tick → IfSome (due_of daemon.new) (λ due. now < due)) }
    ensures err { OnErr result (daemon.new ≡ daemon.old) }
{
    let mut steps: Steps<L> = Steps::new(blank);
    daemon.step(now, word, event, &mut steps)
}
