// The commands of a generated script, in order.
ghost use Rattle.std.specs.Prelude.{◌≡◌, ◌≤◌, ◌+◌, ◌++◌, map, IfOk, OnOk};
ghost use Rattle.lists.specs.Lists.{count_up};
ghost use Rattle.mdns_generator.specs.Generated.{starting, command_of, generated};

use crate::requests::{Kind, booting, command};
use mdns_script::Command;
use std::alloc::{AllocError, Global};

/// The commands of the script of a number, at most 200. Refused only for want of memory.
#[tactic(auto, unfolding(crate::specs::Generated::generated))]
pub(crate) fn commands(alloc: Global, number: u32) -> Result<Vec<Command>, AllocError>
    requires { number ≤ 200 }
    ensures { IfOk result (λ commands. commands.items ≡ generated number) }
{
    let sessions = (number + 63) / 64;
    let mut out = starting(alloc, number)?;
    put_all(alloc, &mut out, Kind::Open, 1, sessions)?;
    put_all(alloc, &mut out, Kind::Register, 1, number)?;
    out.push(Command::Attach { daemon: 2 })?;
    put_all(alloc, &mut out, Kind::Browse, 0, 7)?;
    out.push(Command::At { moment: 10_000 })?;
    put_all(alloc, &mut out, Kind::Close, 1, sessions)?;
    out.push(Command::At { moment: 20_000 })?;
    Ok(out)
}

// What is set, and the boots of the daemons.
fn starting(alloc: Global, number: u32) -> Result<Vec<Command>, AllocError>
    ensures { IfOk result (λ commands. commands.items ≡ starting number) }
{
    let mut out = Vec::new(alloc);
    out.push(Command::Seed { seed: number })?;
    out.push(Command::Delay { ms: 5 })?;
    out.push(booting(1, b"g1"))?;
    out.push(booting(2, b"g2"))?;
    Ok(out)
}

// Puts commands of one kind, with the numbers from the first on, so many. Refused only for want of memory.
fn put_all(
    alloc: Global,
    out: &mut Vec<Command>,
    kind: Kind,
    first: u32,
    count: u32,
) -> Result<(), AllocError>
    requires { first + count ≤ 201 }
    ensures { OnOk result (out.new.items ≡ out.old.items ++ map (command_of kind) (count_up first count)) }
{
    for number in first..first + count {
        out.push(command(alloc, kind, number)?)?;
    }
    Ok(())
}
