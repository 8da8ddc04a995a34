// Laws of the definitions.
ghost use Rattle.mdns_history.specs.Calls.{GoodCallsSucceed};
ghost use Rattle.mdns_history.specs.Fitting.{ExactlyOneFits};
ghost use Rattle.mdns_history.specs.Replays.{IsReplayed, IsQueued};
ghost use Rattle.mdns_history.specs.Typed.{IsOneToOne};

/// In every legal history, the items of a session that is attached and not cut replay to the answers of its operations,
/// and they are the items that it took and then those that are queued.
pub fn items_replay()
    ensures replayed { IsReplayed }
    ensures queued { IsQueued }
{}

/// Exactly one entry fits a history at a moment, with a word, for an event.
pub fn one_entry_fits()
    ensures { ExactlyOneFits }
{}

/// A call that is as it should be succeeds, but exactly where its session was cut, a limit is reached, or the name is held.
pub fn good_calls_succeed()
    ensures { GoodCallsSucceed }
{}

/// Entries that print the same are the same: of printable entries, whose parts are as their types say and whose sent
/// messages have the header of a written message.
pub fn print_is_one_to_one()
    ensures { IsOneToOne }
{}
