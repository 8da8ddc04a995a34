// The laws of announcements and goodbyes, and of responses.
ghost use Rattle.mdns_responding.specs.AnnouncedLaws.{AnnouncedRecordsAreKept, AnnouncedMarksAreKept, TicksTellOwn, GoodbyesAreKept};
ghost use Rattle.mdns_responding.specs.Laws.{ResponsesFollow};

/// What a tick announces, which groups it marks, which own records it sees, and what every other event takes back are read off the
/// groups that are kept, over every legal history of a daemon that claims names. (RFC 6762 8.3, 8.4 and 10.1)
pub fn announcements_follow_the_history()
    ensures announced { AnnouncedRecordsAreKept }
    ensures marked { AnnouncedMarksAreKept }
    ensures own { TicksTellOwn }
    ensures goodbyes { GoodbyesAreKept }
{}

/// What is read off the groups and the last multicasts that are kept is what an event sends in responses to all and which groups it
/// marks as announced, behind each legal history for which they stand. (RFC 6762 8.3, 8.4 and 10.1)
pub fn responses_follow_the_history()
    ensures { ResponsesFollow }
{}
