// Laws of the definitions.
ghost use Rattle.plain_legal.specs.Laws.{EntriesMayStand};

/// An entry that fits a history, or begins one, may stand in one: its moment is at most 2^53 ms, the request of a call that it answered
/// with code 0 is well formed, and the numbers that it gives to names are at most 999,999.
pub fn legal_entries_may_stand()
    ensures { EntriesMayStand }
{}
