// The law of sessions.
ghost use Rattle.sd_sessions.specs.Laws.{SessionsFollow};

/// Sessions that stand for a legal history are carried on by the entry that follows, whatever the duties: what it gives, which
/// sessions it cuts, how it goes and what is then kept is told by the sessions' changes, and these by the answers that their
/// operations have before the entry and with it.
pub fn sessions_follow_the_history()
    ensures { SessionsFollow }
{}
