// The statuses of the program that a script doesn't have.

/// The words are no command.
pub const USAGE: u8 = 2;

/// The door of a server failed.
pub const DOOR_FAULT: u8 = 9;

/// A thread of a server couldn't be started.
pub const SPAWN_FAULT: u8 = 10;

/// The link of a server failed.
pub const LINK_FAULT: u8 = 11;
