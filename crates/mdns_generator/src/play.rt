// Commands, played one after another with no output.
ghost use Rattle.std.specs.Prelude.{◌≡◌, false, IfOk, OnOk};
ghost use Rattle.mdns_hub.specs.Played.{Played, start};
ghost use Rattle.mdns_hub.specs.Plays.{is_bad, Plays};
ghost use Rattle.mdns_hub.specs.Hubs.{StandsFor};
ghost use Rattle.mdns_generator.specs.Goodness.{AreGood};
ghost use Rattle.mdns_generator.specs.Summaries.{HasPlayed};

use mdns_hub::{Hub, HubError};
use mdns_outside::NullSink;
use mdns_script::Command;
use std::alloc::{AllocError, Global};

/// A hub on which commands were played, none of which is bad at its place. Refused only for want of memory.
pub(crate) fn play(alloc: Global, commands: Vec<Command>) -> Result<Hub, AllocError>
    requires { AreGood start commands.items }
    ensures { IfOk result (λ hub. HasPlayed commands.items hub) }
{
    let mut hub = Hub::new(alloc);
    let mut rest = commands.into_iter();
    'commands: while let Some(command) = rest.next() {
        run(&mut hub, command)?;
    }
    Ok(hub)
}

// Plays a command that isn't bad at its place. Refused only for want of memory; then the hub isn't to be used again.
fn run(hub: &mut Hub, command: Command) -> Result<(), AllocError>
    requires { (played : Played) × StandsFor hub.old played × (is_bad played command ≡ false) }
    ensures { OnOk result ((played : Played) → StandsFor hub.old played
        → (next : Played) × Plays command played next × StandsFor hub.new next) }
{
    match hub.run(command, &mut NullSink) {
        Ok(()) => Ok(()),
        Err(HubError::NoMemory) => Err(AllocError),
        Err(HubError::BadCommand | HubError::WriteFault) => unreachable!(),
    }
}
