// What makes the real parts of a server.
ghost use Rattle.std.specs.Prelude.{◌≡◌, IfOk, Ok};
ghost use Rattle.mdns_outside.specs.Places.{MakesLink};
ghost use Rattle.mdns_real.specs.Faults.{ear_faults};

use crate::clock::RealClock;
use crate::door::UnixDoor;
use crate::relay::{RelayAir, RelayEar, loopback};
use crate::socket::open_socket;
use crate::threads::RealSpawner;
use mdns_base::Failed;
use mdns_outside::{ChaWords, OpenGate, Place, ServePlan};
use std::alloc::Global;
use std::fs::Files;
use std::io::ErrorKind;
use std::net::{Net, UdpSocket};
use std::sync::Arc;
use std::thread::Threads;
use std::time::Instant;
use std::{io, time};

/// What failed first.
#[derive(Drop)]
pub enum Trouble {
    /// The socket of the clients.
    Socket { error: io::Error },
    /// The socket of the relay.
    Relay { error: io::Error },
}

// What airs, ears and clocks are made of.
#[derive(Drop)]
struct Link {
    socket: Arc<UdpSocket>,
    address: u32,
    peers: Arc<Vec<u16>>,
    start: Instant,
}

/// Makes the parts of a server on this machine, by the plan that was prepared.
#[derive(Drop)]
pub struct RealPlace<R: Threads + Drop> {
    rt: R,
    alloc: Global,
    plan: Option<ServePlan>,
    link: Option<Link>,
    // How many words were made.
    streams: u64,
    trouble: Option<Trouble>,
    door_faults: u64,
    spawner_faults: u64,
    link_faults: u64,
}

impl<R: Net + Files + Threads + time::Clock + Copy + Drop> RealPlace<R> {
    ghost use Rattle.mdns_real.specs.Doors.{door_faults};
    ghost use Rattle.mdns_real.specs.Faults.{ear_faults};
    ghost use Rattle.mdns_real.specs.Places.{real_counted};

    /// A place without a plan.
    pub fn new(rt: R, alloc: Global) -> Self {
        RealPlace {
            rt,
            alloc,
            plan: None,
            link: None,
            streams: 0,
            trouble: None,
            door_faults: 0,
            spawner_faults: 0,
            link_faults: 0,
        }
    }

    /// What failed first, as a part was made or as it was given back.
    pub fn trouble(&self) -> Option<&Trouble> {
        self.trouble.as_ref()
    }

    // Keeps what failed, where it is the first.
    fn note(&mut self, trouble: Trouble)
        ensures { real_counted self.new ≡ real_counted self.old }
    {
        if self.trouble.is_none() {
            self.trouble = Some(trouble);
        }
    }

    // Opens the link by the plan, where it isn't open yet.
    fn open(&mut self) -> io::Result<()>
        ensures { real_counted self.new ≡ real_counted self.old }
    {
        if self.link.is_some() {
            return Ok(());
        }
        match &self.plan {
            Some(plan) => {
                self.link = Some(open_link(&self.rt, self.alloc, plan)?);
                Ok(())
            }
            None => Err(no_plan()),
        }
    }

    fn make_air(&mut self) -> io::Result<RelayAir>
        ensures { real_counted self.new ≡ real_counted self.old }
    {
        self.open()?;
        match &self.link {
            Some(link) => air_of(link),
            None => Err(no_plan()),
        }
    }

    fn make_ear(&mut self) -> io::Result<RelayEar<R>>
        ensures kept { real_counted self.new ≡ real_counted self.old }
        ensures fresh { IfOk result (λ ear. ear_faults ear ≡ 0) }
    {
        self.open()?;
        match &self.link {
            Some(link) => ear_of(self.rt, link),
            None => Err(no_plan()),
        }
    }

    fn make_clock(&mut self) -> io::Result<RealClock<R>>
        ensures { real_counted self.new ≡ real_counted self.old }
    {
        self.open()?;
        match &self.link {
            Some(link) => Ok(RealClock::new(self.rt, link.start)),
            None => Err(no_plan()),
        }
    }

    fn make_door(&self) -> io::Result<UnixDoor<R>>
        ensures { IfOk result (λ door. door_faults door ≡ 0) }
    {
        match &self.plan {
            Some(plan) => {
                let listener = open_socket(&self.rt, plan.socket.as_str())?;
                Ok(UnixDoor::new(self.rt, listener))
            }
            None => Err(no_plan()),
        }
    }

    // Counts a fault of the link, where a part couldn't be made.
    fn count_link<T>(&mut self, made: io::Result<T>) -> Result<T, Failed>
        ensures counts { MakesLink (real_counted self.old) (real_counted self.new) result }
        ensures part { IfOk result (λ part. made ≡ Ok part) }
    {
        match made {
            Ok(part) => Ok(part),
            Err(error) => {
                self.link_faults = self.link_faults.saturating_add(1);
                self.note(Trouble::Relay { error });
                Err(Failed)
            }
        }
    }
}

impl<R: Net + Files + Threads + time::Clock + Copy + Send + Drop + 'static> Place for RealPlace<R> {
    ghost use Rattle.mdns_real.specs.Places.{real_counted};

    type Ear = RelayEar<R>;

    type Air = RelayAir;

    type Door = UnixDoor<R>;

    type Clock = RealClock<R>;

    type Words = ChaWords;

    type Spawner = RealSpawner<R>;

    type Gate = OpenGate;

    ghost counted = { λ s. real_counted s };

    fn prepare(&mut self, plan: ServePlan) {
        self.plan = Some(plan);
    }

    fn ear(&mut self) -> Result<RelayEar<R>, Failed> {
        let made = self.make_ear();
        self.count_link(made)
    }

    fn door(&mut self) -> Result<UnixDoor<R>, Failed> {
        match self.make_door() {
            Ok(door) => Ok(door),
            Err(error) => {
                self.door_faults = self.door_faults.saturating_add(1);
                self.note(Trouble::Socket { error });
                Err(Failed)
            }
        }
    }

    fn spawner(&mut self) -> Result<RealSpawner<R>, Failed> {
        Ok(RealSpawner::new(self.rt))
    }

    fn air(&mut self) -> Result<RelayAir, Failed> {
        let made = self.make_air();
        self.count_link(made)
    }

    fn clock(&mut self) -> Result<RealClock<R>, Failed> {
        let made = self.make_clock();
        self.count_link(made)
    }

    fn words(&mut self) -> Result<ChaWords, Failed> {
        self.streams = self.streams.saturating_add(1);
        let seed = match &self.plan {
            Some(plan) => plan.seed,
            None => 1,
        };
        Ok(ChaWords::new(seed, self.streams))
    }

    fn gate(&mut self) -> Result<OpenGate, Failed> {
        Ok(OpenGate)
    }

    fn door_back(&mut self, door: UnixDoor<R>) {
        if door.faults() != 0 {
            self.door_faults = self.door_faults.saturating_add(1);
            if let Some(error) = door.into_why() {
                self.note(Trouble::Socket { error });
            }
        }
    }

    fn spawner_back(&mut self, spawner: RealSpawner<R>) {
        if spawner.faults() != 0 {
            self.spawner_faults = self.spawner_faults.saturating_add(1);
        }
    }

    fn ear_back(&mut self, ear: RelayEar<R>) {
        if ear.faults() != 0 {
            self.link_faults = self.link_faults.saturating_add(1);
            if let Some(error) = ear.into_why() {
                self.note(Trouble::Relay { error });
            }
        }
    }
}

// The link of a plan: the relay's socket, and the start of its clock.
fn open_link<R: Net + time::Clock>(rt: &R, alloc: Global, plan: &ServePlan) -> io::Result<Link> {
    let socket = UdpSocket::bind(rt, loopback(plan.relay))?;
    let peers = Vec::from_slice(alloc, plan.peers.as_slice())?;
    Ok(Link {
        socket: Arc::new(alloc, socket)?,
        address: plan.address,
        peers: Arc::new(alloc, peers)?,
        start: Instant::now(rt)?,
    })
}

// An air of a link.
fn air_of(link: &Link) -> io::Result<RelayAir> {
    let socket = Arc::try_clone(&link.socket)?;
    let peers = Arc::try_clone(&link.peers)?;
    Ok(RelayAir::new(socket, link.address, peers))
}

// An ear of a link.
fn ear_of<R: time::Clock + Drop>(rt: R, link: &Link) -> io::Result<RelayEar<R>>
    ensures { IfOk result (λ ear. ear_faults ear ≡ 0) }
{
    let socket = Arc::try_clone(&link.socket)?;
    Ok(RelayEar::new(rt, socket, link.address))
}

// What is asked without a plan, which can't be had.
fn no_plan() -> io::Error {
    io::Error::from(ErrorKind::NotFound)
}
