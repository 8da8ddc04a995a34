// The statuses of a server, and why it accepts no more.

/// All is done: the door gave its last connection, and all sessions ended.
pub(crate) const DONE: u8 = 0;

/// The words aren't as the command wants them.
pub(crate) const USAGE: u8 = 2;

/// The output failed.
pub(crate) const WRITE_FAULT: u8 = 5;

/// Memory was refused before anything was accepted.
pub(crate) const NO_MEMORY: u8 = 6;

/// The door failed.
pub(crate) const DOOR_FAULT: u8 = 9;

/// A thread couldn't be started.
pub(crate) const SPAWN_FAULT: u8 = 10;

/// The link failed.
pub(crate) const LINK_FAULT: u8 = 11;

/// Why a server accepts no more.
#[derive(Drop)]
pub(crate) enum Stop<E> {
    /// The door gave its last connection.
    Over,
    /// The door failed.
    Door,
    /// A half of a session couldn't be started in a thread.
    Spawner,
    /// The parts of a session couldn't be made.
    Link,
    /// This ear failed.
    Ear { ear: E },
}
