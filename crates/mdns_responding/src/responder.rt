// What responses are made from.
ghost use Rattle.std.specs.Prelude.{OnOk, ◌++◌, ◌≡◌};
ghost use Rattle.mdns_claims.specs.Later.{groups_behind};
ghost use Rattle.mdns_happened.specs.Told.{told_by};
ghost use Rattle.mdns_responding.specs.Told.{announced_told, responses_told};

use mdns_claims::Behind;
use mdns_happened::Happened;
use mdns_history::{Marks, Sends};
use mdns_owing::Owing;
use mdns_reply::Lasts;
use std::alloc::{AllocError, Global};

/// What responses are made from: the daemon's key, when records were last multicast, what queries are owed, and what an event makes of the groups. Nothing
/// is changed by it.
#[derive(Drop)]
pub struct Responder<'a> {
    pub alloc: Global,
    pub key: u64,
    pub lasts: &'a Lasts,
    pub owing: &'a Owing,
    pub behind: &'a Behind<'a>,
}

impl Responder<'_> {
    /// Puts the responses that an event sends behind what else it sends: to all the records of the groups that a tick announces, but none
    /// that was multicast less than a second ago, and what it releases of what queries are owed, with the additional records that these
    /// want; then the replies to askers; and the goodbyes of the groups that end. Refused only for want of memory. (RFC 6762 5.4, 6, 6.7,
    /// 8.3, 8.4 and 10.1, RFC 6763 12)
    pub fn put_responses(&self, sent: &mut Sends) -> Result<(), AllocError>
        ensures { OnOk result (sent.new ≡ sent.old ++ responses_told (told_by self.now.behind.now.means.happened.now) self.now.behind.now.means.moment
            self.now.lasts.now.lasts self.now.owing.now.queries self.now.behind.now.groups.now (groups_behind self.now.behind.now)) }
    {
        let behind = self.behind;
        let happened = behind.means.happened;
        match happened {
            Happened::Ticked => {
                self.put_multicasts(sent)?;
                self.owing.put_replies(sent, self.behind.means.moment)
            }
            Happened::Called { .. } | Happened::Detached { .. } => self.put_goodbyes(sent),
            _ => Ok(()),
        }
    }

    /// Puts the marks of the groups that an event announces behind others. Refused only for want of memory. (RFC 6762 8.3)
    pub fn put_marks(&self, marks: &mut Marks) -> Result<(), AllocError>
        ensures { OnOk result (marks.new ≡ marks.old ++ announced_told (told_by self.now.behind.now.means.happened.now) self.now.behind.now.means.moment self.now.behind.now.groups.now) }
    {
        let behind = self.behind;
        let happened = behind.means.happened;
        match happened {
            Happened::Ticked => self.put_announced(marks),
            _ => Ok(()),
        }
    }
}
