// How many items of some kinds a daemon gave to its sessions.
ghost use Rattle.std.specs.Prelude.{◌≡◌};
ghost use Rattle.mdns_hub.specs.Tallies.{no_tally, with_item, with_gifts};

use mdns_history::Given;
use sd_call::{Answer, Item};

/// How many items of three kinds a daemon gave to its sessions. A count stays at 2^64 - 1 once there.
#[derive(Clone, Copy, Debug, PartialEq, Eq)]
pub struct Tally {
    /// Names that registrations got.
    pub named: u64,
    /// Instances that browses found.
    pub found: u64,
    /// Instances that browses no longer have.
    pub lost: u64,
}

impl Tally {
    /// Nothing was counted.
    pub(crate) fn new() -> Self
        ensures { result ≡ no_tally }
    {
        Tally {
            named: 0,
            found: 0,
            lost: 0,
        }
    }

    /// Counts the items of an entry.
    pub(crate) fn count_all(&mut self, gifts: &[Given])
        ensures { self.new ≡ with_gifts gifts.now self.old }
    {
        for gift in gifts {
            self.count(&gift.item);
        }
    }

    // Counts an item.
    fn count(&mut self, item: &Item)
        ensures { self.new ≡ with_item item.now self.old }
    {
        match item {
            Item::Add {
                answer: Answer::Named { .. },
                ..
            } => self.named = self.named.saturating_add(1),
            Item::Add {
                answer: Answer::Found { .. },
                ..
            } => self.found = self.found.saturating_add(1),
            Item::Remove {
                answer: Answer::Found { .. },
                ..
            } => self.lost = self.lost.saturating_add(1),
            _ => {}
        }
    }
}
