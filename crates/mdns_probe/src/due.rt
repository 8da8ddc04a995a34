// What is due of a claim.
ghost use Rattle.std.specs.Prelude.{◌≡◌};
ghost use Rattle.std.specs.Option.{option_to_list};
ghost use Rattle.mdns_probe.specs.Claiming.{due_of, next_of};

use crate::claim::Claim;
use mdns_base::Moment;

/// What is due of a group.
#[derive(Clone, Copy, Drop)]
pub enum Due {
    /// A probe.
    Probe { group: u64 },
    /// The group is sure from now on.
    Settle { group: u64 },
    /// An announcement.
    Announce { group: u64 },
}

impl Claim {
    /// What is due of the claim, where announcements are made or aren't.
    pub fn due(&self, now: Moment, announces: bool) -> Option<Due>
        ensures { result ≡ due_of announces now self.now }
    {
        let group = self.group;
        if self.is_probe_due(now) {
            Some(Due::Probe { group })
        } else if self.is_settle_due(now) {
            Some(Due::Settle { group })
        } else if announces && self.is_announce_due(now) {
            Some(Due::Announce { group })
        } else {
            None
        }
    }

    /// The moment from which on something is due of the claim by itself, in ms.
    pub fn next_due(&self, announces: bool) -> Option<u64>
        ensures { option_to_list result ≡ next_of announces self.now }
    {
        if !self.sure {
            Some(self.due)
        } else if announces && self.announced < 2 {
            Some(self.next)
        } else {
            None
        }
    }
}
