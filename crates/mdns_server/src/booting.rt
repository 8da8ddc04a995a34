// The daemon of a plan, as threads share it.
ghost use Rattle.std.specs.Arc.{arc_value};
ghost use Rattle.std.specs.Prelude.{◌≡◌, ◌⊎◌, ◌^◌, min, Some, IfOk, IfErr, OnOk};
ghost use Rattle.mdns_outside.specs.Places.{MakesLink};
ghost use Rattle.mdns_turn.specs.Models.{IsSeatOf};
ghost use Rattle.mdns_server.specs.Booting.{Boots, BootsAt, config_with};
ghost use Rattle.mdns_server.specs.Serving.{Serves};

use crate::status::{LINK_FAULT, NO_MEMORY};
use mdns_base::{Failed, Moment};
use mdns_happened::When;
use mdns_history::{Config, HostConfig};
use mdns_outside::{Clock, Place, Words};
use mdns_serve::Shared;
use mdns_turn::{Seat, Tale, Turn};
use mdns_words::{Asked, HostLabel};
use std::alloc::{AllocError, Global};
use std::sync::Arc;

/// A daemon as threads share it: the turn at it, and the first seat there.
#[derive(Drop)]
pub struct SharedDaemon {
    pub turn: Arc<Turn<Shared>>,
    pub seat: Seat<Shared>,
}

/// Hands the plan of what is asked to a place and boots its daemon, as threads share it: one with that host, at the address of the
/// plan. It boots at the moment that the place's clock tells, or at 2^53 ms where that is later, with a word of the place. The error is
/// a status:
/// - 6: memory was refused.
/// - 11: the link failed, so that the clock or the words couldn't be made.
pub fn boot_plan<P: Place>(alloc: Global, asked: Asked, place: &mut P) -> Result<SharedDaemon, u8>
    ensures seat { IfOk result (λ made. IsSeatOf (arc_value made.turn) made.seat) }
    // The daemon that all threads share was booted with that host and the plan's address, and nothing happened to it since.
    ensures boots { IfOk result (λ made. BootsAt asked.host asked.plan.address (arc_value made.turn).opening) }
    ensures place { OnOk result (P.counted place.new ≡ record (P.counted place.old) { plan = Some asked.plan }) }
    ensures failed { IfErr result (λ status. Serves asked.plan (P.counted place.old) (P.counted place.new) status × ((status ≡ 6) ⊎ (status ≡ 11))) }
{
    let Asked { host, plan } = asked;
    let address = plan.address;
    place.prepare(plan);
    let Ok(boot) = boot_of(place) else {
        return Err(LINK_FAULT);
    };
    match booted(alloc, host, address, boot) {
        Ok(made) => Ok(made),
        Err(_) => Err(NO_MEMORY),
    }
}

// When a daemon is booted.
#[derive(Clone, Copy, Debug)]
struct Boot {
    // The moment, in milliseconds.
    now: u64,
    // The random word.
    word: u32,
}

// The moment and the word that a place gives for a boot. They fail only with the link.
fn boot_of<P: Place>(place: &mut P) -> Result<Boot, Failed>
    ensures { MakesLink (P.counted place.old) (P.counted place.new) result }
{
    let mut clock = place.clock()?;
    let mut words = place.words()?;
    Ok(Boot {
        now: clock.now(),
        word: words.word(),
    })
}

// A daemon with a host that threads share, and the first seat at its turn. Refused only for want of memory.
fn booted(
    alloc: Global,
    host: HostLabel,
    address: u32,
    boot: Boot,
) -> Result<SharedDaemon, AllocError>
    ensures seat { IfOk result (λ made. IsSeatOf (arc_value made.turn) made.seat) }
    ensures boots { IfOk result (λ made. Boots (config_with host address) (min boot.now (2 ^ 53)) boot.word (arc_value made.turn).opening) }
{
    let config = Config {
        address,
        host: Some(HostConfig {
            label: host.into_label(),
            v6: None,
        }),
    };
    let when = When::new(Moment::at_most_last(boot.now), boot.word);
    let shared = Shared::boot(alloc, config, when)?;
    let (turn, seat) = shared_turn(alloc, shared)?;
    Ok(SharedDaemon { turn, seat })
}

// The turn of a value as threads share it, and the first seat at it. Refused only for want of memory.
fn shared_turn<T: Tale + Drop>(
    alloc: Global,
    value: T,
) -> Result<(Arc<Turn<T>>, Seat<T>), AllocError>
    ensures turn { IfOk result (λ made. (arc_value made.0).opening ≡ value) }
    ensures seat { IfOk result (λ made. IsSeatOf (arc_value made.0) made.1) }
{
    let (turn, seat) = Turn::new(alloc, value)?;
    let turn = Arc::new(alloc, turn)?;
    Ok((turn, seat))
}
