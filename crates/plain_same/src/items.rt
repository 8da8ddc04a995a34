// Items, and how an event went.
use crate::{Same, all_same};
use mdns_history::{Gifts, Given, Items, Outcome};
use sd_call::{Answer, Item};

impl Same for Answer {
    fn same_as(&self, other: &Answer) -> bool {
        match (self, other) {
            (Answer::Datum { rdata }, Answer::Datum { rdata: its }) => rdata.same_as(its),
            (Answer::Found { instance }, Answer::Found { instance: its }) => instance.same_as(its),
            (
                Answer::Resolved {
                    priority,
                    weight,
                    port,
                    target,
                    txt,
                },
                Answer::Resolved {
                    priority: its_priority,
                    weight: its_weight,
                    port: its_port,
                    target: its_target,
                    txt: its_txt,
                },
            ) => {
                priority == its_priority
                    && weight == its_weight
                    && port == its_port
                    && target.same_as(its_target)
                    && txt.as_slice() == its_txt.as_slice()
            }
            (Answer::Named { full }, Answer::Named { full: its }) => full.same_as(its),
            (Answer::Conflict, Answer::Conflict) => true,
            _ => false,
        }
    }
}

impl Same for Item {
    fn same_as(&self, other: &Item) -> bool {
        match (self, other) {
            (
                Item::Reply { op, verb, code },
                Item::Reply {
                    op: its_op,
                    verb: its_verb,
                    code: its_code,
                },
            ) => op == its_op && verb == its_verb && code == its_code,
            (
                Item::Add { op, answer },
                Item::Add {
                    op: its_op,
                    answer: its_answer,
                },
            )
            | (
                Item::Remove { op, answer },
                Item::Remove {
                    op: its_op,
                    answer: its_answer,
                },
            ) => op == its_op && answer.same_as(its_answer),
            _ => false,
        }
    }
}

impl Same for Items {
    fn same_as(&self, other: &Items) -> bool {
        all_same(self.as_slice(), other.as_slice())
    }
}

impl Same for Given {
    fn same_as(&self, other: &Given) -> bool {
        self.session == other.session && self.item.same_as(&other.item)
    }
}

impl Same for Gifts {
    fn same_as(&self, other: &Gifts) -> bool {
        all_same(self.as_slice(), other.as_slice())
    }
}

impl Same for Outcome {
    fn same_as(&self, other: &Outcome) -> bool {
        match (self, other) {
            (Outcome::Opened { session }, Outcome::Opened { session: its }) => session == its,
            (Outcome::Code { code }, Outcome::Code { code: its }) => code == its,
            (Outcome::Items { items }, Outcome::Items { items: its }) => items.same_as(its),
            (Outcome::Done, Outcome::Done)
            | (Outcome::Full, Outcome::Full)
            | (Outcome::Ended, Outcome::Ended)
            | (Outcome::Closed, Outcome::Closed)
            | (Outcome::Cut, Outcome::Cut)
            | (Outcome::Empty, Outcome::Empty) => true,
            _ => false,
        }
    }
}
