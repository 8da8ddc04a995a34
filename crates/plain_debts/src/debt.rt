// What queries are owed.
use dns_record::Rr;
use mdns_base::{Dest, Host};
use std::marker::Model;

/// A record that is owed, and where it goes.
#[derive(Drop)]
pub struct OwedRecord {
    pub rr: Rr,
    pub to: Dest,
}

impl Model for OwedRecord {
    ghost use Rattle.mdns_history.specs.Debts.{Owed};

    ghost Value = { Owed };

    ghost view = { λ a. (a.rr, a.to) };
}

/// A debt: the place of the query in the history, who sent it, whether it said that more follows, whether it had authority records,
/// the record that is owed, where it goes, and when it is due, in ms.
#[derive(Drop)]
pub struct StandingDebt {
    pub place: usize,
    pub from: Host,
    pub truncated: bool,
    pub probing: bool,
    pub rr: Rr,
    pub to: Dest,
    pub due: u64,
}

impl Model for StandingDebt {
    ghost use Rattle.mdns_history.specs.Debts.{Debt};

    ghost Value = { Debt };

    ghost view = { λ a. record { place = a.place; from = a.from; truncated = a.truncated; probing = a.probing; rr = a.rr; to = a.to; due = a.due } };
}
