// The laws of claims.
ghost use Rattle.mdns_claims.specs.Laws.{ClaimsFollow, NsecsAreKnown, OursIsKnown, OwnIsKnown, OwnTtlsAreKnown};

/// Claims that stand for a legal history are carried on by the entry that follows, whatever the other duties: the marks and the
/// probes are those of the entry, and what is then kept stands for the history with it. (RFC 6762 8 and 9)
pub fn claims_follow_the_history()
    ensures { ClaimsFollow }
{}

/// Where what is kept stands for a history, it tells the own records, the NSEC records of the sure names, and whether a record is
/// one of them, as the history does; and none of them has a greater TTL than own records have. (RFC 6762 6.1 and 10)
pub fn own_and_nsecs_are_known()
    ensures own { OwnIsKnown }
    ensures nsecs { NsecsAreKnown }
    ensures ours { OursIsKnown }
    ensures ttls { OwnTtlsAreKnown }
{}
