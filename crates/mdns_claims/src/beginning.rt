// A group that begins.
ghost use Rattle.std.specs.Prelude.{IfOk, ◌≡◌};

use mdns_claimants::Claimant;
use std::alloc::{AllocError, Global};
use std::marker::Model;

/// A group that begins. It stands in a box, since each plan has room for it and few have one.
#[derive(Drop)]
pub struct Beginning {
    one: Box<Claimant>,
}

impl Model for Beginning {
    ghost use Rattle.mdns_probe.specs.Kept.{Kept};

    ghost Value = { Kept };

    ghost view = { λ a. a.one.value };
}

impl Beginning {
    /// The group as it begins. Refused only for want of memory.
    pub fn new(alloc: Global, one: Claimant) -> Result<Beginning, AllocError>
        ensures { IfOk result (λ beginning. beginning ≡ one) }
    {
        let one = Box::new(alloc, one)?;
        Ok(Beginning { one })
    }

    /// The group.
    pub fn claimant(&self) -> &Claimant
        ensures { result.now ≡ self.now }
    {
        &self.one
    }

    /// The group, taken out of its box.
    pub fn into_claimant(self) -> Claimant
        ensures { result ≡ self }
    {
        Box::into_inner(self.one)
    }
}
