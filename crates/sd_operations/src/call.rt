// A call of a session.
ghost use Rattle.std.specs.Prelude.{◌≡◌, IfOk};

use sd_call::Request;
use std::alloc::{AllocError, Global};

/// A call of a session: the number of its operation, and what it asks for.
#[derive(Drop)]
pub struct Call {
    pub op: u32,
    pub request: Request,
}

impl Call {
    /// An equal call. Refused only for want of memory.
    pub fn copy(&self, alloc: Global) -> Result<Call, AllocError>
        ensures { IfOk result (λ copy. copy ≡ self.now) }
    {
        Ok(Call {
            op: self.op,
            request: self.request.copy(alloc)?,
        })
    }
}
