// Marks.
use crate::{Same, all_same};
use mdns_history::{Cause, Mark, Marks};

impl Same for Mark {
    fn same_as(&self, other: &Mark) -> bool {
        match (self, other) {
            (Mark::Bad { number }, Mark::Bad { number: its }) => number == its,
            (Mark::Full, Mark::Full) => true,
            (
                Mark::Renamed { group, number },
                Mark::Renamed {
                    group: its_group,
                    number: its_number,
                },
            ) => group == its_group && number == its_number,
            (Mark::Contested { group }, Mark::Contested { group: its }) => group == its,
            (Mark::TieLost { group }, Mark::TieLost { group: its }) => group == its,
            (Mark::Failed { group }, Mark::Failed { group: its }) => group == its,
            (
                Mark::Asked { question, cause },
                Mark::Asked {
                    question: its_question,
                    cause: its_cause,
                },
            ) => question.same_as(its_question) && cause == its_cause,
            (Mark::Announced { group }, Mark::Announced { group: its }) => group == its,
            (Mark::Cut { session }, Mark::Cut { session: its }) => session == its,
            _ => false,
        }
    }
}

impl Same for Marks {
    fn same_as(&self, other: &Marks) -> bool {
        all_same(self.as_slice(), other.as_slice())
    }
}
