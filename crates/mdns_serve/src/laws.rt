// A law of the sessions whose end is owed.
ghost use Rattle.mdns_serve.specs.Room.{OwedEndsHaveRoom};

/// In legal turns fewer than 64 ends are owed, where that of an attached session isn't: so there is always room for it, and
/// no end is forgotten.
pub fn owed_ends_have_room()
    ensures { OwedEndsHaveRoom }
{}
