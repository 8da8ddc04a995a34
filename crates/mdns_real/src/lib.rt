//! The real outside of a server: clients at a Unix socket, the relay over UDP, the clock and the threads of the machine.
#![tactic(auto)]

mod clock;
mod door;
mod failure;
mod place;
mod relay;
mod socket;
mod threads;

pub use clock::RealClock;
pub use door::UnixDoor;
pub use place::{RealPlace, Trouble};
pub use relay::{RelayAir, RelayEar};
pub use socket::open_socket;
pub use threads::RealSpawner;
