// The law of what queries are owed behind an event.
ghost use Rattle.mdns_owing.specs.Laws.{QueriesFollow};

/// What is noted of an event, and what is dropped then, are the queries behind it. (RFC 6762 6 and 7)
pub fn queries_follow_the_event()
    ensures { QueriesFollow }
{}
