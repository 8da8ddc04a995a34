// Questions that are active.
use dns_record::Key;
use mdns_base::Moment;
use std::marker::Model;

/// An active question, as its first operation spells it, with the moment and the word of the entry with which it began.
#[derive(Drop)]
pub struct ActiveQuestion {
    pub key: Key,
    pub start: Moment,
    pub word: u32,
}

impl Model for ActiveQuestion {
    ghost use Rattle.mdns_history.specs.Questions.{Active};

    ghost Value = { Active };

    ghost view = { λ a. record { key = a.key; start = a.start; word = a.word } };
}
