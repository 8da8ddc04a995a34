// A law of the definitions, on a function without a body.
ghost use Rattle.mdns_reply.specs.Laws.{StandLater};

/// Kept moments that stand for a history stand for it when an entry is added that multicasts nothing.
#[tactic(auto, using(crate::proofs::Standing::stand_later))]
pub fn kept_moments_stand_later()
    ensures { StandLater }
{}
