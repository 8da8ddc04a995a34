// What becomes of a group that an event touches.
use mdns_probe::Claim;

/// The number and the claim that a group has behind an event that touches it.
#[derive(Drop)]
pub struct Renewal {
    pub number: u32,
    pub claim: Claim,
}
