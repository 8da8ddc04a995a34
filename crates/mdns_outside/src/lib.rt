//! The outside of a daemon that is served and of its clients, and what stands for it in tests.
#![tactic(auto)]

mod air;
mod chacha;
mod clock;
mod counted;
mod door;
mod ear;
mod mem_place;
mod mem_plug;
mod noted;
mod notes;
mod null_sink;
mod parts;
mod place;
mod plan;
mod plug;
mod spawner;

pub use air::{MemAir, Packet};
pub use chacha::ChaWords;
pub use clock::{MemClock, MemWords, OpenGate};
pub use counted::Counted;
pub use door::MemDoor;
pub use ear::{Incoming, MemEar};
pub use mem_place::{MemPlace, Scene, SharedGate};
pub use mem_plug::{MemPlug, Peer};
pub use noted::{NotedAir, NotedSink};
pub use notes::Notes;
pub use null_sink::NullSink;
pub use parts::{Air, Arrival, Clock, Door, Ear, Gate, Point, Spawner, Words};
pub use place::Place;
pub use plan::{PathText, Ports, ServePlan};
pub use plug::Plug;
pub use spawner::MemSpawner;
