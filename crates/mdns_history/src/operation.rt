// Operations of sessions.
ghost use Rattle.std.specs.Prelude.{◌≡◌, IfOk};

use lists::List;
use sd_call::Request;
use std::alloc::{AllocError, Global};

/// A live operation of a session: its number, which the client chose, and what it asks for.
#[derive(Drop)]
pub struct Operation {
    pub session: u64,
    pub op: u32,
    pub request: Request,
}

/// A list of operations.
pub type Operations = List<Operation>;

impl Operation {
    /// An equal operation. Refused only for want of memory.
    pub fn copy(&self, alloc: Global) -> Result<Operation, AllocError>
        ensures { IfOk result (λ copy. copy ≡ self.now) }
    {
        Ok(Operation {
            session: self.session,
            op: self.op,
            request: self.request.copy(alloc)?,
        })
    }
}
