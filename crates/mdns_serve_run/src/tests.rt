ghost use Rattle.std.specs.Arc.{arc_value};
ghost use Rattle.std.specs.Prelude.{IfOk};
ghost use Rattle.mdns_turn.specs.Models.{IsSeatOf, IsSameSeat};

mod serving;

use bytes::Bytes;
use dns_name::Name;
use mdns_base::{Host, Moment};
use mdns_happened::When;
use mdns_history::{Config, Event};
use mdns_outside::{Clock, Incoming, MemAir, MemClock, MemEar, MemWords, Notes};
use mdns_serve::{
    Bell, Common, Happening, HearEnd, Kit, SendOrder, SendPlace, Shared, Step, hear_loop, tick_loop,
};
use mdns_turn::{Seat, Turn};
use sd_call::Request;
use std::alloc::{AllocError, Global};
use std::sync::{Arc, Wait};
use std::test::Fail;
use std::thread;
use std::time::Duration;

// A daemon without a host that threads share, and the first seat.
fn shared_daemon(alloc: Global) -> Result<(Turn<Shared>, Seat<Shared>), AllocError>
    ensures { IfOk result (λ made. IsSeatOf made.0 made.1) }
{
    let config = Config {
        address: 0x0a00_0001,
        host: None,
    };
    let when = When::new(Moment::default(), 0);
    Turn::new(alloc, Shared::boot(alloc, config, when)?)
}

// The same with what its threads share.
fn shared_by_threads<R: Drop>(rt: R, alloc: Global) -> Result<(Common<R>, Seat<Shared>), AllocError>
    ensures { IfOk result (λ made. IsSeatOf (arc_value made.0.turn) made.1) }
{
    let (turn, seat) = shared_daemon(alloc)?;
    let common = Common {
        rt,
        alloc,
        turn: Arc::new(alloc, turn)?,
        bell: Arc::new(alloc, Bell::new(alloc)?)?,
    };
    Ok((common, seat))
}

// The moment of a turn's entry.
fn moment_of(done: &Happening) -> Option<u64> {
    match done {
        Happening::Entered { entry } => Some(entry.moment),
        Happening::Missed { .. } => None,
    }
}

#[test]
fn a_moment_is_the_greatest_that_was_told(rt: HostRuntime) -> Result<(), Fail> {
    let alloc = rt.alloc();
    let (turn, mut seat) = shared_daemon(alloc)?;
    let bell = Bell::new(alloc)?;
    let place = SendPlace::new();
    let mut other = turn.split(&rt, &mut seat)?;
    turn.turn(&rt, &mut seat, Step::new(5, 0, Event::Tick, &bell, &place));
    turn.turn(&rt, &mut other, Step::new(3, 0, Event::Tick, &bell, &place));
    turn.join(&mut seat, other);
    let done = turn.turn(&rt, &mut seat, Step::new(0, 0, Event::Tick, &bell, &place));
    assert_eq!(rt; moment_of(&done).ok_or(AllocError)?, 5);
    Ok(())
}

// A clock that tells a moment three times, for the first tick and what follows it, and then closes the bell.
#[derive(Drop)]
struct LastClock<'a> {
    bell: &'a Bell,
    told: u64,
}

impl<'a> Clock for LastClock<'a> {
    fn now(&mut self) -> u64 {
        self.told = self.told.saturating_add(1);
        if self.told > 2 {
            self.bell.close();
        }
        1000
    }

    fn nap(&mut self) {}
}

#[test]
fn the_ticker_asks_what_is_due(rt: HostRuntime) -> Result<(), Fail> {
    let alloc = rt.alloc();
    let (common, mut seat) = shared_by_threads(rt, alloc)?;
    let bell = &*common.bell;
    let place = SendPlace::new();
    let attach = Step::new(0, 0, Event::Attach, bell, &place);
    common.turn.turn(&rt, &mut seat, attach);
    let call = Event::Call {
        session: 1,
        op: 1,
        request: Request::Query {
            kind: 1,
            name: Name::parse_text("a.local").map_err(|_| AllocError)?,
        },
    };
    common
        .turn
        .turn(&rt, &mut seat, Step::new(0, 0, call, bell, &place));
    let mut kit = Kit {
        air: MemAir::new(alloc, Vec::from_slice(alloc, &[1])?),
        clock: LastClock { bell, told: 0 },
        words: MemWords(0),
    };
    tick_loop(&common, &mut seat, &mut kit);
    assert_eq!(rt; kit.air.packets().ok_or(AllocError)?.len(), 1);
    Ok(())
}

// Hears what comes to an ear until it ends or fails.
fn hear_all<R: Wait>(common: &Common<R>, seat: &mut Seat<Shared>, ear: &mut MemEar) -> HearEnd
    requires { IsSeatOf (arc_value common.now.turn) seat.old }
    ensures { IsSameSeat seat.old seat.new }
{
    let alloc = common.alloc;
    let mut kit = Kit {
        air: MemAir::new(alloc, Vec::new(alloc)),
        clock: MemClock::new(Vec::new(alloc), 1),
        words: MemWords(0),
    };
    hear_loop(common, seat, &mut kit, ear)
}

#[test]
fn the_ear_is_heard_until_it_fails(rt: HostRuntime) -> Result<(), Fail> {
    let alloc = rt.alloc();
    let (common, mut seat) = shared_by_threads(rt, alloc)?;
    let mut packets = Vec::new(alloc);
    packets.push(Incoming {
        from: Host {
            ip: 0x0a00_0002,
            port: 5353,
        },
        bytes: Bytes::from_vec(Vec::from_slice(alloc, b"no message")?)?,
    })?;
    let mut ear = MemEar::new(packets, Vec::from_slice(alloc, &[2])?);
    let failed = hear_all(&common, &mut seat, &mut ear);
    assert_eq!(rt; failed, HearEnd::LinkFault);
    let ended = hear_all(&common, &mut seat, &mut ear);
    assert_eq!(rt; ended, HearEnd::Ended);
    Ok(())
}

// Who drew later waits until the one before has sent.
#[test]
fn packets_leave_in_the_order_of_turns(rt: HostRuntime) -> Result<(), Fail> {
    let alloc = rt.alloc();
    let order = Arc::new(alloc, SendOrder::new())?;
    let sent = Arc::new(alloc, Notes::new(alloc))?;
    let (first, second) = (SendPlace::new(), SendPlace::new());
    order.draw(&first);
    order.draw(&second);
    let (other_order, other_sent) = (Arc::try_clone(&order)?, Arc::try_clone(&sent)?);
    let other = thread::spawn(&rt, move || {
        other_order.wait(&rt, &second);
        other_sent.add(&rt, 2u8);
        other_order.pass();
    })?;
    order.wait(&rt, &first);
    thread::sleep(&rt, Duration::from_millis(20));
    sent.add(&rt, 1u8);
    order.pass();
    other.join(&rt);
    let sent = sent.take(&rt);
    if sent.len() < 2 {
        // What finds no memory is left out.
        Err(AllocError)?;
    }
    assert_eq!(rt; sent.as_slice(), [1u8, 2].as_slice());
    Ok(())
}
