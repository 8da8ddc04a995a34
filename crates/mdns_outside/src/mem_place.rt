// A place in memory, with lists of the calls that are to fail.
ghost use Rattle.std.specs.Prelude.{◌≡◌, IfOk, Ok, Some, if◌then◌else◌};
ghost use Rattle.mdns_outside.specs.Places.{MakesLink, Adds, counting, risen};

use crate::{
    ChaWords, Gate, Incoming, MemClock, MemDoor, MemEar, MemSpawner, NotedAir, Notes, Packet,
    Place, Point, ServePlan,
};
use mdns_base::{Failed, Sink, Source};
use std::alloc::{AllocError, Global};
use std::mem;
use std::sync::{Arc, Wait};
use std::thread::Threads;

/// What comes to a place in memory, and which calls fail there. Calls count from 1.
#[derive(Drop)]
pub struct Scene<I: Drop, O: Drop> {
    /// The packets that come to its ear.
    pub packets: Vec<Incoming>,
    /// The connections that come to its door.
    pub callers: Vec<(I, O)>,
    /// How much later each moment is than the one before, in milliseconds.
    pub step: u64,
    /// The calls that fail of those that make a part.
    pub failing_parts: Vec<u64>,
    /// The calls of the ear that fail.
    pub failing_receives: Vec<u64>,
    /// The calls of the door that fail.
    pub failing_callers: Vec<u64>,
    /// The works that can't be started.
    pub failing_starts: Vec<u64>,
}

impl<I: Drop, O: Drop> Scene<I, O> {
    /// Nothing comes, nothing fails, and each moment is a millisecond later.
    pub fn new(alloc: Global) -> Self {
        Scene {
            packets: Vec::new(alloc),
            callers: Vec::new(alloc),
            step: 1,
            failing_parts: Vec::new(alloc),
            failing_receives: Vec::new(alloc),
            failing_callers: Vec::new(alloc),
            failing_starts: Vec::new(alloc),
        }
    }
}

/// A gate that several threads pass.
#[derive(Drop)]
pub struct SharedGate<G> {
    gate: Arc<G>,
}

impl<G: Gate> Gate for SharedGate<G> {
    fn pass(&self, point: Point) {
        self.gate.pass(point);
    }
}

/// A place whose parts are in memory, but for the threads, which are real. The first ear and the first door have all that
/// comes; further ones have nothing. Each clock begins anew. Words are those of the plan's seed, of stream 1, 2, 3 and so on.
#[derive(Drop)]
pub struct MemPlace<R, I: Drop, O: Drop, G> {
    rt: R,
    alloc: Global,
    scene: Scene<I, O>,
    sent: Arc<Notes<Packet>>,
    gate: Arc<G>,
    plan: Option<ServePlan>,
    calls: u64,
    streams: u64,
    door_faults: u64,
    spawner_faults: u64,
    link_faults: u64,
    doors_over: u64,
    given: u64,
    whole: bool,
}

impl<R: Copy, I: Drop, O: Drop, G> MemPlace<R, I, O, G> {
    ghost use Rattle.mdns_outside.specs.Played.{place_counted};

    /// A place without a plan, whose airs note here what they are handed, and whose gates are this one.
    pub fn new(
        rt: R,
        alloc: Global,
        scene: Scene<I, O>,
        sent: Arc<Notes<Packet>>,
        gate: Arc<G>,
    ) -> Self {
        MemPlace {
            rt,
            alloc,
            scene,
            sent,
            gate,
            plan: None,
            calls: 0,
            streams: 0,
            door_faults: 0,
            spawner_faults: 0,
            link_faults: 0,
            doors_over: 0,
            given: 0,
            whole: true,
        }
    }

    // Whether this call that makes a part fails.
    fn fails(&mut self) -> bool
        ensures { place_counted self.new ≡ place_counted self.old }
    {
        self.calls = self.calls.saturating_add(1);
        self.scene.failing_parts.contains(&self.calls)
    }

    // A part that was made, unless this call fails, or memory was refused.
    fn part<T: Drop>(&mut self, made: Result<T, AllocError>) -> Result<T, Failed>
        ensures counts { MakesLink (place_counted self.old) (place_counted self.new) result }
        ensures part { IfOk result (λ part. made ≡ Ok part) }
    {
        if !self.fails()
            && let Ok(part) = made
        {
            return Ok(part);
        }
        self.link_faults = self.link_faults.saturating_add(1);
        Err(Failed)
    }

    // Adds what a door gave. Where the sum can't be counted, it isn't told any more.
    fn add_given(&mut self, given: u64)
        ensures adds { Adds (place_counted self.old).given (place_counted self.new).given (Some given) }
        ensures same { place_counted self.new ≡ record (place_counted self.old) { given = (place_counted self.new).given } }
    {
        match self.given.checked_add(given) {
            Some(sum) => self.given = sum,
            None => self.whole = false,
        }
    }

    // An air that notes what it is handed.
    fn make_air(&self) -> Result<NotedAir<R>, AllocError> {
        let sent = Arc::try_clone(&self.sent)?;
        Ok(NotedAir::new(self.rt, self.alloc, sent))
    }

    // The gate, once more.
    fn make_gate(&self) -> Result<SharedGate<G>, AllocError> {
        let gate = Arc::try_clone(&self.gate)?;
        Ok(SharedGate { gate })
    }
}

impl<
    R: Threads + Wait + Copy + Send + Drop + 'static,
    I: Source + Send + Drop + 'static,
    O: Sink + Send + Drop + 'static,
    G: Gate + Send + Sync + Drop + 'static,
> Place for MemPlace<R, I, O, G> {
    ghost use Rattle.mdns_outside.specs.Played.{place_counted};

    type Ear = MemEar;

    type Air = NotedAir<R>;

    type Door = MemDoor<I, O>;

    type Clock = MemClock;

    type Words = ChaWords;

    type Spawner = MemSpawner<R>;

    type Gate = SharedGate<G>;

    ghost counted = { λ s. place_counted s };

    fn prepare(&mut self, plan: ServePlan) {
        self.plan = Some(plan);
    }

    fn ear(&mut self) -> Result<MemEar, Failed> {
        let packets = mem::replace(&mut self.scene.packets, Vec::new(self.alloc));
        let failing = mem::replace(&mut self.scene.failing_receives, Vec::new(self.alloc));
        self.part(Ok(MemEar::new(packets, failing)))
    }

    fn door(&mut self) -> Result<MemDoor<I, O>, Failed> {
        if self.fails() {
            self.door_faults = self.door_faults.saturating_add(1);
            return Err(Failed);
        }
        let callers = mem::replace(&mut self.scene.callers, Vec::new(self.alloc));
        let failing = mem::replace(&mut self.scene.failing_callers, Vec::new(self.alloc));
        Ok(MemDoor::new(callers, failing))
    }

    fn spawner(&mut self) -> Result<MemSpawner<R>, Failed> {
        if self.fails() {
            self.spawner_faults = self.spawner_faults.saturating_add(1);
            return Err(Failed);
        }
        let failing = mem::replace(&mut self.scene.failing_starts, Vec::new(self.alloc));
        Ok(MemSpawner::new(self.rt, failing))
    }

    fn air(&mut self) -> Result<NotedAir<R>, Failed> {
        let made = self.make_air();
        self.part(made)
    }

    fn clock(&mut self) -> Result<MemClock, Failed> {
        let clock = MemClock::new(Vec::new(self.alloc), self.scene.step);
        self.part(Ok(clock))
    }

    fn words(&mut self) -> Result<ChaWords, Failed> {
        self.streams = self.streams.saturating_add(1);
        let seed = match &self.plan {
            Some(plan) => plan.seed,
            None => 1,
        };
        self.part(Ok(ChaWords::new(seed, self.streams)))
    }

    fn gate(&mut self) -> Result<SharedGate<G>, Failed> {
        let made = self.make_gate();
        self.part(made)
    }

    fn door_back(&mut self, door: MemDoor<I, O>) {
        self.door_faults = counting(self.door_faults, door.faults());
        self.doors_over = counting_true(self.doors_over, door.is_over());
        self.add_given(door.given() as u64);
    }

    fn spawner_back(&mut self, spawner: MemSpawner<R>) {
        self.spawner_faults = counting(self.spawner_faults, spawner.faults());
    }

    fn ear_back(&mut self, ear: MemEar) {
        self.link_faults = counting(self.link_faults, ear.faults());
    }
}

// A count, one higher where a part had faults.
fn counting(count: u64, faults: u64) -> u64
    ensures { result ≡ counting count faults }
{
    if faults == 0 {
        count
    } else {
        count.saturating_add(1)
    }
}

// A count, one higher where something is so.
fn counting_true(count: u64, is_so: bool) -> u64
    ensures { result ≡ (if is_so then risen count else count) }
{
    if is_so {
        count.saturating_add(1)
    } else {
        count
    }
}
