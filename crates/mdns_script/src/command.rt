use mdns_history::{Config, Event};

/// What a line of a script asks for.
#[derive(Drop)]
pub enum Command {
    /// Nothing: the line is empty or a comment.
    Pass,
    /// Boots a daemon, 1 to 16.
    Daemon { number: u32, config: Config },
    /// Runs all that is due up to a moment, in milliseconds.
    At { moment: u64 },
    /// Gives every later event this random word.
    Word { word: u32 },
    /// Gives every later event the next random word of a seed, from its first on.
    Seed { seed: u32 },
    /// Lets packets that are sent from now on arrive so many milliseconds later.
    Delay { ms: u64 },
    /// Lets so many of the next packets that are sent be lost, whatever is left of an earlier count.
    Lose { count: u64 },
    /// Parts two daemons: neither hears what the other sends from now on.
    Part { left: u32, right: u32 },
    /// Lets two daemons hear each other again.
    Meet { left: u32, right: u32 },
    /// Attaches a session to a daemon.
    Attach { daemon: u32 },
    /// Lets an event happen to a daemon.
    Event { daemon: u32, event: Event },
}

/// What a line is.
#[derive(Drop)]
pub enum Line {
    /// A line of no form.
    Bad,
    /// A line that asks for something.
    Command(Command),
}
