// Laws of the definitions.
ghost use Rattle.mdns_known.specs.Laws.{IsOfLiveRecords, AreOfLiveRecords, IsOrderFree};

/// The known answers of a history, of one question and of several, are those over its live records, in whatever order these
/// stand; and over records of which no two are the same, the order in which they stand doesn't matter.
pub fn known_answers_of_live_records()
    ensures live { IsOfLiveRecords }
    ensures all { AreOfLiveRecords }
    ensures order { IsOrderFree }
{}
