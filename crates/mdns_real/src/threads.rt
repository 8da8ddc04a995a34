// Threads of the machine.
ghost use Rattle.std.specs.Prelude.{◌≡◌};

use mdns_base::Failed;
use mdns_outside::Spawner;
use std::thread::Threads;

/// Starts works in threads.
#[derive(Drop)]
pub struct RealSpawner<R: Threads + Drop> {
    rt: R,
    faults: u64,
}

impl<R: Threads + Drop> RealSpawner<R> {
    ghost use Rattle.mdns_real.specs.Faults.{spawner_faults};

    /// What starts threads, without a fault.
    pub fn new(rt: R) -> Self
        ensures { spawner_faults result ≡ 0 }
    {
        RealSpawner { rt, faults: 0 }
    }

    /// How often it failed. The count stays at 2^64 - 1 once there.
    pub fn faults(&self) -> u64
        ensures { result ≡ spawner_faults self.now }
    {
        self.faults
    }
}

impl<R: Threads + Drop> Spawner for RealSpawner<R> {
    type Rt = R;

    ghost use Rattle.mdns_real.specs.Faults.{spawner_faults};

    ghost faults = { λ s. spawner_faults s };

    fn runtime(&self) -> &R {
        &self.rt
    }

    fn admit(&mut self) -> Result<(), Failed> {
        Ok(())
    }

    fn refused(&mut self) {
        self.faults = self.faults.saturating_add(1);
    }
}
