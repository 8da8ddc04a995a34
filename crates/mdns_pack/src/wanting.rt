// Answers with the records that they want beside them.
ghost use Rattle.std.specs.Prelude.{◌≡◌};

use dns_message::Rrs;
use dns_record::Rr;
use std::marker::Model;

/// An answer, and the records that it wants as additional ones. (RFC 6763 12)
#[derive(Drop)]
pub struct Wanting {
    answer: Rr,
    wanted: Rrs,
}

impl Model for Wanting {
    ghost use Rattle.std.specs.Prelude.{List};
    ghost use Rattle.dns_record.specs.declared.record.Rr.{Rr};

    ghost Value = { Rr × List Rr };

    ghost view = { λ w. (w.answer, w.wanted) };
}

impl Wanting {
    /// An answer that wants these records.
    pub fn new(answer: Rr, wanted: Rrs) -> Self
        ensures { result ≡ (answer, wanted) }
    {
        Wanting { answer, wanted }
    }

    /// The answer.
    pub fn answer(&self) -> &Rr
        ensures { result.now ≡ self.now.0 }
    {
        &self.answer
    }

    /// The records that it wants.
    pub fn wanted(&self) -> &[Rr]
        ensures { result.now ≡ self.now.1 }
    {
        self.wanted.as_slice()
    }
}
