// The entries of a history.
ghost use Rattle.std.specs.Prelude.{◌≡◌, Some, None, IsTrue, IfSome, nat_le, if◌then◌else◌};
ghost use Rattle.std.specs.List.{list_all};
ghost use Rattle.std.specs.Option.{option_copied, option_map};
ghost use Rattle.sd_call.specs.Requests.{well_formed};
ghost use Rattle.mdns_history.specs.Fitting.{last_moment};
ghost use Rattle.mdns_history.specs.History.{booted, config_of, now};
ghost use Rattle.mdns_history.specs.Sessions.{accepted_in};
ghost use Rattle.plain_history.specs.Standing.{may_stand, is_sound_call, is_small};

use mdns_base::Moment;
use mdns_history::{Config, Entry, Event, Mark, Outcome};
use sd_call::{Request, well_formed};
use std::marker::Model;

/// The greatest number of a name.
const GREATEST_NUMBER: u32 = 999_999;

/// An entry that may stand in a history: its moment is at most 2^53 ms, the request of a call that it answered with code 0 is
/// well formed, and the numbers that it gives to names are at most 999,999. A history is a list of these, the last one first.
#[derive(Drop)]
pub struct HistoryEntry {
    entry: Entry,
}

impl Model for HistoryEntry {
    ghost use Rattle.std.specs.Prelude.{◌≤◌, ◌^◌, IsTrue};
    ghost use Rattle.std.specs.List.{list_all};
    ghost use Rattle.mdns_history.specs.declared.entry.Entry.{Entry};
    ghost use Rattle.mdns_history.specs.Sessions.{accepted_in};
    ghost use Rattle.plain_history.specs.Standing.{is_sound_call, is_small};

    ghost Value = { Entry };

    ghost view = { λ a. a.entry };

    ghost invariant = { λ a. (a.entry.moment ≤ 2 ^ 53) × IsTrue (is_sound_call (accepted_in a.entry)) × IsTrue (list_all is_small a.entry.marks) };
}

impl HistoryEntry {
    /// The entry as one of a history; `None` exactly where it may not stand in one.
    pub fn new(entry: Entry) -> Option<HistoryEntry>
        ensures { result ≡ (if may_stand entry then Some entry else None) }
    {
        if may_stand(&entry) {
            Some(HistoryEntry { entry })
        } else {
            None
        }
    }

    /// The entry.
    pub fn entry(&self) -> &Entry
        ensures { result.now ≡ self.now }
    {
        &self.entry
    }

    /// The moment of the entry.
    pub fn moment(&self) -> Moment
        ensures { result ≡ self.now.moment }
    {
        Moment::new(self.entry.moment)
    }

    /// Session, operation and request of the call that the entry answered with code 0. The request is well formed.
    pub fn accepted_call(&self) -> Option<(u64, u32, &Request)>
        ensures value { option_map (λ call. record { session = call.0; op = call.1; request = call.2.now }) result ≡ accepted_in self.now }
        ensures well_formed { IfSome result (λ call. IsTrue (well_formed call.2.now)) }
    {
        match (&self.entry.event, &self.entry.outcome) {
            (
                Event::Call {
                    session,
                    op,
                    request,
                },
                Outcome::Code { code: 0 },
            ) => Some((*session, *op, request)),
            _ => None,
        }
    }

    /// The marks of the entry. The numbers that they give to names are at most 999,999.
    pub fn marks(&self) -> &[Mark]
        ensures value { result.now ≡ self.now.marks }
        ensures small { IsTrue (list_all is_small result.now) }
    {
        self.entry.marks.as_slice()
    }

    /// The entry itself.
    pub fn into_entry(self) -> Entry
        ensures { result ≡ self }
    {
        self.entry
    }
}

fn may_stand(entry: &Entry) -> bool
    ensures { result ≡ may_stand entry.now }
{
    is_moment(entry.moment) && has_sound_call(entry) && has_small_numbers(entry)
}

// Whether a moment, in ms, isn't past the last one.
fn is_moment(ms: u64) -> bool
    ensures { result ≡ nat_le ms last_moment }
{
    Moment::try_new(ms).is_some()
}

// Whether the call that an entry answered with code 0 is well formed, if it did so.
fn has_sound_call(entry: &Entry) -> bool
    ensures { result ≡ is_sound_call (accepted_in entry.now) }
{
    match (&entry.event, &entry.outcome) {
        (Event::Call { request, .. }, Outcome::Code { code: 0 }) => well_formed(request),
        _ => true,
    }
}

// Whether the numbers that an entry gives to names are small.
fn has_small_numbers(entry: &Entry) -> bool
    ensures { result ≡ list_all is_small entry.now.marks }
{
    entry.marks.as_slice().iter().all(|mark| is_small(mark))
}

fn is_small(mark: &Mark) -> bool
    ensures { result ≡ is_small mark.now }
{
    match mark {
        Mark::Renamed { number, .. } => *number <= GREATEST_NUMBER,
        _ => true,
    }
}

/// The last moment of a history, the first one that there is before its first entry.
pub fn now(history: &[HistoryEntry]) -> Moment
    ensures { result ≡ now history.now }
{
    match history.first() {
        Some(entry) => entry.moment(),
        None => Moment::default(),
    }
}

/// The configuration with which the daemon was booted.
pub fn config_of(history: &[HistoryEntry]) -> Option<&Config>
    ensures { option_copied result ≡ config_of history.now }
{
    for entry in history {
        if let Event::Boot { config } = &entry.entry().event {
            return Some(config);
        }
    }
    None
}
