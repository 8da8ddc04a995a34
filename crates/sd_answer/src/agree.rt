// Whether known records give the same answers, told without making these.
ghost use Rattle.std.specs.Prelude.{◌≡◌, map, length, IsTrue};
ghost use Rattle.sd_call.specs.declared.request.Request.{Request};
ghost use Rattle.mdns_history.specs.Answers.{answers_over};
ghost use Rattle.sd_answer.specs.Known.{bare, rrs_of, rrs_in};

use crate::KnownRecords;
use dns_record::{Rdata, Rr};
use mdns_history::Held;

impl KnownRecords<'_> {
    /// Whether these records and others agree one for one, in their order: owners, case aside, and data. Where they do, they give the
    /// same answers to each request. It takes no memory.
    #[tactic(auto, using(crate::proofs::Agreeing::same_answers))]
    pub fn agree(&self, other: &KnownRecords<'_>) -> bool
        ensures { IsTrue result → (request : Request) → answers_over request (rrs_in self.now) ≡ answers_over request (rrs_in other.now) }
    {
        held_agree(self.held, other.held) && own_agree(self.own, other.own)
    }
}

// Whether held records agree one for one.
fn held_agree(left: &[Held], right: &[Held]) -> bool
    ensures { IsTrue result → map bare (rrs_of left.now) ≡ map bare (rrs_of right.now) }
{
    if left.len() != right.len() {
        return false;
    }
    for place in 0..left.len() {
        if !is_alike(&left[place].rr, &right[place].rr) {
            return false;
        }
    }
    true
}

// Whether own records agree one for one.
fn own_agree(left: &[Rr], right: &[Rr]) -> bool
    ensures { IsTrue result → map bare left.now ≡ map bare right.now }
{
    if left.len() != right.len() {
        return false;
    }
    for place in 0..left.len() {
        if !is_alike(&left[place], &right[place]) {
            return false;
        }
    }
    true
}

// Whether two records have one owner, case aside, and equal data.
fn is_alike(left: &Rr, right: &Rr) -> bool
    ensures { IsTrue result → bare left.now ≡ bare right.now }
{
    left.owner.folded_eq(&right.owner) && is_equal(&left.rdata, &right.rdata)
}

// Whether data are equal.
fn is_equal(left: &Rdata, right: &Rdata) -> bool
    ensures { IsTrue result → left.now ≡ right.now }
{
    match (left, right) {
        (Rdata::A(one), Rdata::A(other)) => one == other,
        (Rdata::Aaaa(one), Rdata::Aaaa(other)) => one == other,
        (Rdata::Ptr(one), Rdata::Ptr(other)) => one.exact_eq(other),
        (Rdata::Cname(one), Rdata::Cname(other)) => one.exact_eq(other),
        (Rdata::Srv { .. }, Rdata::Srv { .. }) => is_one_place(left, right),
        (Rdata::Txt(one), Rdata::Txt(other)) => one.as_slice() == other.as_slice(),
        _ => false,
    }
}

// Whether data are of SRV records that name one place alike.
fn is_one_place(left: &Rdata, right: &Rdata) -> bool
    ensures { IsTrue result → left.now ≡ right.now }
{
    match (left, right) {
        (
            Rdata::Srv {
                priority,
                weight,
                port,
                target,
            },
            Rdata::Srv {
                priority: other_priority,
                weight: other_weight,
                port: other_port,
                target: other_target,
            },
        ) => {
            priority == other_priority
                && weight == other_weight
                && port == other_port
                && target.exact_eq(other_target)
        }
        _ => false,
    }
}
