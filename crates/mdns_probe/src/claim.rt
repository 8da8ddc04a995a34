// The claim of a group, and what becomes of it.
ghost use Rattle.std.specs.Prelude.{◌≡◌, ◌≤◌, ◌<◌, ◌^◌, true};
ghost use Rattle.mdns_probe.specs.Claiming.{begun, probed_if, settled_if, announced_if, set_back, ticked, after_tick, change_of, has_wait, is_probe_due, is_settle_due, is_announce_due};

use dns_message::Rrs;
use mdns_base::Moment;

/// How long after a probe the next one is due, and the group sure after the third, in ms. (RFC 6762 8.1)
const PROBE_GAP: u64 = 250;

/// How long after an announcement the next one is due, in ms. (RFC 6762 8.3)
const ANNOUNCE_GAP: u64 = 1000;

/// How many probes make a group sure. (RFC 6762 8.1)
const PROBES: u32 = 3;

/// How often a group is announced. (RFC 6762 8.3)
const ANNOUNCEMENTS: u32 = 2;

/// A group's claim of its name. Moments are in ms. (RFC 6762 8)
#[derive(Drop)]
pub struct Claim {
    /// The number of the group.
    pub group: u64,
    /// The unique records, which all have its name.
    pub unique: Rrs,
    /// The shared records.
    pub shared: Rrs,
    /// How often it was probed since it was registered or last set back.
    pub probes: u32,
    /// The moment from which on it is probed next, and, after the third probe, sure.
    pub due: u64,
    /// Whether it is sure.
    pub sure: bool,
    /// How often it was announced since it became sure or its records changed, where it is sure.
    pub announced: u32,
    /// The moment from which on it is announced next, where it is sure.
    pub next: u64,
}

/// What is left of a claim that is given up.
#[derive(Drop)]
pub struct Gone {
    /// Whether it was sure.
    pub sure: bool,
    /// Its unique records.
    pub unique: Rrs,
    /// Its shared records.
    pub shared: Rrs,
}

/// What may become of a claim beside a tick.
#[derive(Clone, Copy, Drop)]
pub enum Change {
    /// It has to be probed anew, and waits so much for its first probe, in ms.
    SetBack { wait: u64 },
    /// It was probed.
    Probed,
    /// It is sure.
    Settled,
    /// It was announced.
    Announced,
}

impl Claim {
    /// The claim of a group that is registered at `now`, and is first probed so much later.
    pub fn begun(now: Moment, wait: u64, group: u64, unique: Rrs, shared: Rrs) -> Claim
        requires wait { wait ≤ 5000 }
        ensures { result ≡ begun now wait group unique shared }
    {
        Claim {
            group,
            unique,
            shared,
            probes: 0,
            due: now.ms() + wait,
            sure: false,
            announced: 0,
            next: 0,
        }
    }

    /// Lets the claim be probed anew, so much later.
    pub fn set_back(&mut self, now: Moment, wait: u64)
        requires wait { wait ≤ 5000 }
        ensures { self.new ≡ set_back now wait self.old }
    {
        self.probes = 0;
        self.due = now.ms() + wait;
        self.sure = false;
        self.announced = 0;
        self.next = 0;
    }

    /// Notes a tick: a probe that was due was sent, or else the claim becomes sure where that is due; and then it was
    /// announced where that is due and announcements are made at all.
    pub fn note_tick(&mut self, now: Moment, announces: bool)
        ensures { self.new ≡ after_tick now announces self.old }
    {
        self.note_time(now);
        if announces {
            self.note_announcement(now);
        }
    }

    fn note_time(&mut self, now: Moment)
        ensures { self.new ≡ ticked now self.old }
    {
        if self.is_probe_due(now) {
            self.note_probe(now);
        } else {
            self.note_settled(now);
        }
    }

    /// Notes a probe, where one is due.
    pub fn note_probe(&mut self, now: Moment)
        ensures { self.new ≡ probed_if now self.old }
    {
        if self.is_probe_due(now) {
            self.probes += 1;
            self.due = now.ms() + PROBE_GAP;
        }
    }

    /// Notes that the claim is sure, where that is due.
    pub fn note_settled(&mut self, now: Moment)
        ensures { self.new ≡ settled_if now self.old }
    {
        if self.is_settle_due(now) {
            self.sure = true;
            self.announced = 0;
            self.next = now.ms();
        }
    }

    /// Notes an announcement, where one is due.
    pub fn note_announcement(&mut self, now: Moment)
        ensures { self.new ≡ announced_if now true self.old }
    {
        if self.is_announce_due(now) {
            self.announced += 1;
            self.next = now.ms() + ANNOUNCE_GAP;
        }
    }

    /// Makes a change. A wait is at most five seconds.
    pub fn change(&mut self, now: Moment, change: Change)
        requires wait { has_wait change }
        ensures { self.new ≡ change_of now change self.old }
    {
        match change {
            Change::SetBack { wait } => self.set_back(now, wait),
            Change::Probed => self.note_probe(now),
            Change::Settled => self.note_settled(now),
            Change::Announced => self.note_announcement(now),
        }
    }

    /// Whether a probe is due.
    pub fn is_probe_due(&self, now: Moment) -> bool
        ensures value { result ≡ is_probe_due now self.now }
        ensures few { result ≡ true → self.now.probes < 3 }
    {
        !self.sure && self.probes < PROBES && self.due <= now.ms()
    }

    /// Whether the claim becomes sure.
    pub fn is_settle_due(&self, now: Moment) -> bool
        ensures { result ≡ is_settle_due now self.now }
    {
        !self.sure && self.probes >= PROBES && self.due <= now.ms()
    }

    /// Whether an announcement is due.
    pub fn is_announce_due(&self, now: Moment) -> bool
        ensures value { result ≡ is_announce_due now self.now }
        ensures few { result ≡ true → self.now.announced < 2 }
    {
        self.sure && self.announced < ANNOUNCEMENTS && self.next <= now.ms()
    }
}
