// Live operations.
ghost use Rattle.std.specs.Prelude.{◌≡◌, IfOk};

use sd_call::Request;
use std::alloc::{AllocError, Global};
use std::marker::Model;

/// A live operation of a session, under the number that the client chose; its request is well formed.
#[derive(Drop)]
pub struct LiveOperation {
    pub session: u64,
    pub op: u32,
    pub request: Request,
}

impl Model for LiveOperation {
    ghost use Rattle.std.specs.Prelude.{IsTrue};
    ghost use Rattle.sd_call.specs.Requests.{well_formed};
    ghost use Rattle.mdns_history.specs.declared.operation.Operation.{Operation};

    ghost Value = { Operation };

    ghost view = { λ a. record { session = a.session; op = a.op; request = a.request } };

    ghost invariant = { λ a. IsTrue (well_formed a.request) };
}

impl LiveOperation {
    /// An equal operation. Refused only for want of memory.
    pub fn copy(&self, alloc: Global) -> Result<LiveOperation, AllocError>
        ensures { IfOk result (λ copy. copy ≡ self.now) }
    {
        Ok(LiveOperation {
            session: self.session,
            op: self.op,
            request: self.request.copy(alloc)?,
        })
    }
}
