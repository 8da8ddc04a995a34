// The lines that change the link.
ghost use Rattle.std.specs.Prelude.{◌≡◌};
ghost use Rattle.std.specs.Option.{option_map};
ghost use Rattle.mdns_script.specs.Links.{number_in, two_daemons};

use crate::Command;
use crate::boot::daemon_number;
use number_text::{cut_at, read_decimal};

/// What follows `delay`: 1 to 10,000 milliseconds.
pub(crate) fn delay_command(text: &[u8]) -> Option<Command>
    ensures { result ≡ option_map (λ n. Command.Delay n) (number_in 1 10000 text.now) }
{
    let ms = number_in(1, 10_000, text)?;
    Some(Command::Delay { ms })
}

/// What follows `lose`: up to 1,000,000 packets.
pub(crate) fn lose_command(text: &[u8]) -> Option<Command>
    ensures { result ≡ option_map (λ n. Command.Lose n) (number_in 0 1000000 text.now) }
{
    let count = number_in(0, 1_000_000, text)?;
    Some(Command::Lose { count })
}

/// What follows `part`: two daemons.
pub(crate) fn part_command(text: &[u8]) -> Option<Command>
    ensures { result ≡ option_map (λ pair. Command.Part pair.0 pair.1) (two_daemons text.now) }
{
    let (left, right) = two_daemons(text)?;
    Some(Command::Part { left, right })
}

/// What follows `meet`: two daemons.
pub(crate) fn meet_command(text: &[u8]) -> Option<Command>
    ensures { result ≡ option_map (λ pair. Command.Meet pair.0 pair.1) (two_daemons text.now) }
{
    let (left, right) = two_daemons(text)?;
    Some(Command::Meet { left, right })
}

// A number from the least to the most that there may be.
fn number_in(least: u64, most: u64, text: &[u8]) -> Option<u64>
    ensures { result ≡ number_in least most text.now }
{
    let number = read_decimal(text)?;
    if least <= number && number <= most {
        Some(number)
    } else {
        None
    }
}

#[tactic(auto, unfolding(crate::specs::Links::two_daemons))]
fn two_daemons(text: &[u8]) -> Option<(u32, u32)>
    ensures { result ≡ two_daemons text.now }
{
    let (left, right) = cut_at(text, b' ')?;
    let left = daemon_number(left)?;
    let right = daemon_number(right)?;
    Some((left, right))
}
