// The laws of what queries are owed.
ghost use Rattle.mdns_debts.specs.Following.{AreFollowed};
ghost use Rattle.mdns_debts.specs.Keeping.{LastsTellNoMore, OursHaveOwnTtls};
ghost use Rattle.mdns_debts.specs.Laws.{AreOfQueries, AreRepliedTo, AreReleasedBy};
ghost use Rattle.mdns_debts.specs.Ours.{ComeIsOurs, OwedIsOurs};
ghost use Rattle.mdns_debts.specs.Ticked.{IsLaterBehindTicks};
ghost use Rattle.mdns_debts.specs.Waiting.{AreOfSame, IsWaiting};

/// The standing debts of a history are those of the queries that are owed something; so are the replies to askers and
/// the records that a tick releases. (RFC 6762 6 and 6.7)
pub fn debts_are_of_queries()
    ensures debts { AreOfQueries }
    ensures replies { AreRepliedTo }
    ensures released { AreReleasedBy }
{}

/// One more entry carries the queries that are owed something on as it tells. (RFC 6762 6, 7.1, 7.2 and 7.4)
pub fn queries_follow_the_history()
    ensures followed { AreFollowed }
{}

/// A tick sends nothing for what queries are owed exactly where all of it has to wait, and after a tick of a daemon that
/// replies all of it has to. (RFC 6762 6)
pub fn replies_wait()
    ensures waiting { IsWaiting }
    ensures same { AreOfSame }
    ensures later { IsLaterBehindTicks }
{}

/// The last multicasts that are kept tell of queries what those of the history tell, where what is owed has no greater TTL
/// than own records have; and what is the daemon's to send in a history has no greater one. (RFC 6762 5.4, 6 and 10)
pub fn kept_lasts_are_enough()
    ensures enough { LastsTellNoMore }
    ensures ttls { OursHaveOwnTtls }
{}

/// All that queries are owed is the daemon's to send, also what one is owed as it is heard. (RFC 6762 6)
pub fn owed_records_are_ours()
    ensures owed { OwedIsOurs }
    ensures come { ComeIsOurs }
{}
