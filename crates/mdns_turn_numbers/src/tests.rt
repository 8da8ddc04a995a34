ghost use Rattle.std.specs.Prelude.{◌<◌, ◌+◌, ◌^◌, ◌≡◌, [], IfOk};

use crate::lent::count_both;
use crate::modeled::{Dial, set_by_turn};
use crate::spawned::turn_in_thread;
use crate::threads::{Shares, append_all, by_three};
use crate::{Append, Numbers};
use mdns_turn::Turn;
use std::alloc::{AllocError, Global};
use std::sync::Arc;
use std::test::Fail;

// The numbers from..from + count.
fn numbers(alloc: Global, from: u64, count: u64) -> Result<Vec<u64>, AllocError>
    requires { from + count < 2 ^ 64 }
{
    let mut all = Vec::new(alloc);
    for n in from..from + count {
        all.push(n)?;
    }
    Ok(all)
}

// Whether the list has the numbers from..from + count once and in their order.
fn has_once(all: &[u64], from: u64, count: u64) -> bool
    requires { from + count < 2 ^ 64 }
{
    let mut next = from;
    for n in all {
        if from <= *n && *n < from + count {
            if *n != next {
                return false;
            }
            next = next.wrapping_add(1);
        }
    }
    next == from + count
}

#[test]
fn three_threads_append(rt: HostRuntime) -> Result<(), Fail> {
    let alloc = rt.alloc();
    // Without a wake after each turn the longer run hangs.
    for count in [10, 100_000] {
        let (turn, mut seat) = Turn::new(
            alloc,
            Numbers {
                items: Vec::new(alloc),
            },
        )?;
        let one = numbers(alloc, 1_000_000, count)?;
        let two = numbers(alloc, 2_000_000, count)?;
        let three = numbers(alloc, 3_000_000, count)?;
        let shares = Shares {
            first: &one,
            second: &two,
            third: &three,
        };
        let all = by_three(&rt, alloc, &turn, &mut seat, shares).ok_or(AllocError)?;
        assert_eq!(rt; all.len() as u64, 3 * count);
        for from in [1_000_000, 2_000_000, 3_000_000] {
            assert!(rt;
                has_once(&all, from, count),
                "the {count} numbers from {from}"
            );
        }
    }
    Ok(())
}

#[test]
fn other_works(rt: HostRuntime) -> Result<(), Fail> {
    let alloc = rt.alloc();
    let (turn, mut seat) = Turn::new(
        alloc,
        Numbers {
            items: Vec::new(alloc),
        },
    )?;
    assert_eq!(rt; count_both(&rt, &turn, &mut seat, &[1, 2, 3]), (3, 0));
    if append_all(&rt, &turn, &mut seat, &[4, 5]) {
        assert_eq!(rt; count_both(&rt, &turn, &mut seat, &[]), (0, 2));
    }

    let (turn, seat) = Turn::new(
        alloc,
        Numbers {
            items: Vec::new(alloc),
        },
    )?;
    let turn = Arc::new(alloc, turn)?;
    let appended = turn_in_thread(rt, &turn, seat, Append { number: 7 }).ok_or(AllocError)?;
    if !appended {
        Err(AllocError)?;
    }

    let (turn, mut seat) = Turn::new(alloc, Dial::new(5))?;
    assert_eq!(rt; set_by_turn(&rt, &turn, &mut seat, 8), 5);
    assert_eq!(rt; set_by_turn(&rt, &turn, &mut seat, 9), 8);
    Ok(())
}
