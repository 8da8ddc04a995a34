// The order of answers.
ghost use Rattle.std.specs.Prelude.{◌≡◌, ◌↔◌, ◌++◌};
ghost use Rattle.std.specs.Ordering.{nat_cmp};
ghost use Rattle.std.specs.Cmp.Lexicographic.{slice_cmp};
ghost use Rattle.dns_name.specs.Names.{wire_of};
ghost use Rattle.sd_call.specs.Answers.{answer_bytes, answer_cmp};

use crate::Answer;
use dns_name::Name;
use dns_record::{Rdata, rdata_cmp};
use std::cmp::Ordering;

/// The order of an operation's answers: that of their bytes in a frame. Equal exactly where these are the same.
pub fn answer_cmp(left: &Answer, right: &Answer) -> Ordering
    ensures value { result ≡ answer_cmp left.now right.now }
    ensures equal { (result ≡ Ordering.Equal) ↔ (answer_bytes left.now ≡ answer_bytes right.now) }
{
    match left {
        Answer::Datum { rdata } => datum_cmp(rdata, right),
        Answer::Found { instance } => found_cmp(instance, right),
        Answer::Resolved {
            priority,
            weight,
            port,
            target,
            txt,
        } => {
            let place = Place {
                priority: *priority,
                weight: *weight,
                port: *port,
                target,
                txt: txt.as_slice(),
            };
            resolved_cmp(place, right)
        }
        Answer::Named { full } => named_cmp(full, right),
        Answer::Conflict => conflict_cmp(right),
    }
}

#[tactic(auto, unfolding(crate::specs::Answers::answer_cmp), using(crate::proofs::AnswerOrder::datum))]
fn datum_cmp(rdata: &Rdata, right: &Answer) -> Ordering
    ensures { result ≡ answer_cmp (Answer.Datum rdata.now) right.now }
{
    match right {
        Answer::Datum { rdata: theirs } => {
            // Types are numbers of 16 bits, whose order is that of their bytes.
            let _kinds = (rdata.kind(), theirs.kind());
            rdata_cmp(rdata, theirs)
        }
        Answer::Found { .. } | Answer::Resolved { .. } | Answer::Named { .. } | Answer::Conflict =>
            { Ordering::Less }
    }
}

#[tactic(auto, unfolding(crate::specs::Answers::answer_cmp))]
fn found_cmp(instance: &Name, right: &Answer) -> Ordering
    ensures { result ≡ answer_cmp (Answer.Found instance.now) right.now }
{
    match right {
        Answer::Datum { .. } => Ordering::Greater,
        Answer::Found { instance: theirs } => instance.as_wire().cmp(theirs.as_wire()),
        Answer::Resolved { .. } | Answer::Named { .. } | Answer::Conflict => Ordering::Less,
    }
}

// Where an instance is reached, and its TXT data.
#[derive(Clone, Copy)]
struct Place<'a> {
    priority: u16,
    weight: u16,
    port: u16,
    target: &'a Name,
    txt: &'a [u8],
}

#[tactic(auto, unfolding(crate::specs::Answers::answer_cmp))]
fn resolved_cmp(ours: Place<'_>, right: &Answer) -> Ordering
    ensures { result ≡ answer_cmp (Answer.Resolved ours.entry.priority ours.entry.weight ours.entry.port ours.entry.target.now ours.entry.txt.now) right.now }
{
    match right {
        Answer::Datum { .. } | Answer::Found { .. } => Ordering::Greater,
        Answer::Resolved {
            priority,
            weight,
            port,
            target,
            txt,
        } => {
            let theirs = Place {
                priority: *priority,
                weight: *weight,
                port: *port,
                target,
                txt: txt.as_slice(),
            };
            place_cmp(ours, theirs)
        }
        Answer::Named { .. } | Answer::Conflict => Ordering::Less,
    }
}

fn place_cmp(ours: Place<'_>, theirs: Place<'_>) -> Ordering
    ensures { result ≡ answer_cmp (Answer.Resolved ours.entry.priority ours.entry.weight ours.entry.port ours.entry.target.now ours.entry.txt.now)
        (Answer.Resolved theirs.entry.priority theirs.entry.weight theirs.entry.port theirs.entry.target.now theirs.entry.txt.now) }
{
    let numbers = ours
        .priority
        .cmp(&theirs.priority)
        .then(ours.weight.cmp(&theirs.weight))
        .then(ours.port.cmp(&theirs.port));
    numbers.then(joined_cmp(ours.target, ours.txt, theirs.target, theirs.txt))
}

// The order of a name's wire form and of the bytes behind it.
fn joined_cmp(name: &Name, txt: &[u8], their_name: &Name, their_txt: &[u8]) -> Ordering
    ensures { result ≡ slice_cmp nat_cmp (wire_of name.now ++ txt.now) (wire_of their_name.now ++ their_txt.now) }
{
    let ours = name.as_wire().iter().chain(txt.iter());
    let theirs = their_name.as_wire().iter().chain(their_txt.iter());
    ours.cmp(theirs)
}

#[tactic(auto, unfolding(crate::specs::Answers::answer_cmp))]
fn named_cmp(full: &Name, right: &Answer) -> Ordering
    ensures { result ≡ answer_cmp (Answer.Named full.now) right.now }
{
    match right {
        Answer::Datum { .. } | Answer::Found { .. } | Answer::Resolved { .. } => Ordering::Greater,
        Answer::Named { full: theirs } => full.as_wire().cmp(theirs.as_wire()),
        Answer::Conflict => Ordering::Less,
    }
}

#[tactic(auto, unfolding(crate::specs::Answers::answer_cmp))]
fn conflict_cmp(right: &Answer) -> Ordering
    ensures { result ≡ answer_cmp Answer.Conflict right.now }
{
    match right {
        Answer::Datum { .. }
        | Answer::Found { .. }
        | Answer::Resolved { .. }
        | Answer::Named { .. } => { Ordering::Greater }
        Answer::Conflict => Ordering::Equal,
    }
}
