// The rows of a transcript.
use lists::List;
use mdns_history::Entry;

/// An entry, and the number of its daemon.
#[derive(Drop)]
pub struct Row {
    pub daemon: u32,
    pub entry: Entry,
}

/// The rows of a transcript, in the order of its text.
pub type Transcript = List<Row>;
