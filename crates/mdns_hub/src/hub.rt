// A script's commands, done on daemons and the link between them.
ghost use Rattle.std.specs.Prelude.{◌≡◌, ◌≤◌, ◌^◌, ◌&&◌, ◌||◌, nat_le, not, IsTrue, true, false};
ghost use Rattle.std.specs.Str.{is_utf8};
ghost use Rattle.mdns_history.specs.Fitting.{is_boot, is_host_label};
ghost use Rattle.mdns_hub.specs.Slots.{is_kept, AreBehind};
ghost use Rattle.mdns_hub.specs.Order.{AreFit, AreFit-prop};

use crate::HubError;
use crate::daemons::{Booted, Daemons};
use crate::historic::Standing;
use crate::link::Link;
use crate::steps::put_entry;
use crate::tally::Tally;
use mdns_base::{Moment, Sink};
use mdns_draw::{SeedWords, Words};
use mdns_history::{Config, Event, HostConfig};
use mdns_script::Command;
use sd_name::is_service_label;
use std::alloc::{AllocError, Global};

/// A day in milliseconds: the furthest that one command runs ahead.
const MOST_AHEAD: u64 = 86_400_000;

/// What a script runs on: the current moment, the random words of the events to come, the link, and the daemons
/// that were booted.
#[derive(Drop)]
pub struct Hub {
    pub(crate) alloc: Global,
    pub(crate) clock: Moment,
    pub(crate) words: Words,
    pub(crate) link: Link,
    pub(crate) daemons: Daemons,
    ghost behind: { AreBehind clock daemons.slots.items },
    ghost fit: { AreFit clock (is_kept daemons.slots.items) link.under_way.items } by { AreFit-prop clock (is_kept daemons.slots.items) link.under_way.items },
}

impl Hub {
    ghost use Rattle.std.specs.Prelude.{◌≡◌, ◌↔◌, true, false, Err, OnOk, OnErr};
    ghost use Rattle.mdns_hub.specs.Played.{Played, start, history_of};
    ghost use Rattle.mdns_hub.specs.Links.{most_daemons};
    ghost use Rattle.mdns_hub.specs.Plays.{is_out_of_reach, is_setting, set_by, is_bad, Boots, Happens, Does, Plays};
    ghost use Rattle.mdns_hub.specs.Output.{HasWriteCause, DoesPart, PlaysPart, OrNothing};
    ghost use Rattle.mdns_hub.specs.Hubs.{StandsFor, Advances, BreaksIn, is_bad_for};
    ghost use Rattle.mdns_hub.specs.Tallies.{tally_of};

    /// A hub on which nothing was played. It takes no memory.
    pub fn new(alloc: Global) -> Self
        ensures { StandsFor result start }
    {
        Hub {
            alloc,
            clock: Moment::new(0),
            words: Words::Same { word: 0 },
            link: Link::new(alloc),
            daemons: Daemons::new(alloc),
        }
    }

    /// Does a command, and puts the print of each entry as one piece. After `BadCommand`, which comes exactly where the command is bad
    /// at this place of the script, the hub and the output are as before; after another error a beginning of what was to be put was put,
    /// and the hub isn't to be used again. `WriteFault` exactly where the sink failed.
    pub fn run<K: Sink>(&mut self, command: Command, output: &mut K) -> Result<(), HubError>
        ensures done { OnOk result (Advances (Plays command) self.old self.new (K.held output.old) (K.held output.new)) }

        ensures bad { (played : Played) → StandsFor self.old played
            → (result ≡ Err HubError.BadCommand) ↔ (is_bad played command ≡ true) }
        ensures undone { result ≡ Err HubError.BadCommand → (self.new ≡ self.old) × (output.new ≡ output.old) }
        ensures part { OnErr result (BreaksIn (PlaysPart command) self.old (K.held output.old) (K.held output.new)) }
        ensures cause { HasWriteCause (K.faults output.old) (K.faults output.new) result }
    {
        if self.is_bad(&command) {
            Err(HubError::BadCommand)
        } else {
            self.play(command, output)
        }
    }

    /// What a daemon gave to its sessions in all that was played; nothing where it wasn't booted.
    pub fn tally(&self, daemon: u32) -> Tally
        ensures { (played : Played) → StandsFor self.now played → result ≡ tally_of (history_of daemon played.told) }
    {
        self.daemons.tally(daemon)
    }

    // Whether the command is bad at this place of the script.
    #[tactic(auto, unfolding(crate::specs::Plays::is_bad_at))]
    fn is_bad(&self, command: &Command) -> bool
        ensures { result ≡ is_bad_for self.now command.now }
    {
        match command {
            Command::Pass | Command::Word { .. } | Command::Seed { .. } | Command::Lose { .. } => {
                false
            }
            Command::Daemon { number, config } => self.is_bad_boot(*number, &config.host),
            Command::At { moment } => self.is_out_of_reach(*moment),
            Command::Delay { ms } => !(1 <= *ms && *ms <= 10_000),
            Command::Part { left, right } => {
                !self.daemons.has(*left) || !self.daemons.has(*right) || *left == *right
            }
            Command::Meet { left, right } => !self.daemons.has(*left) || !self.daemons.has(*right),
            Command::Attach { daemon } => !self.daemons.has(*daemon),
            Command::Event { daemon, event } => !self.daemons.has(*daemon) || is_boot(event),
        }
    }

    // Whether a daemon can't be booted: its number is none, it was booted, or its host has a label that isn't text or has control characters.
    fn is_bad_boot(&self, number: u32, host: &Option<HostConfig>) -> bool
        ensures { result ≡ (not (nat_le 1 number && nat_le number most_daemons) || is_kept self.now.daemons.slots.items number || not (is_host_label host.now)) }
    {
        !(1 <= number && number <= 16) || self.daemons.has(number) || !is_host_label(host)
    }

    fn is_out_of_reach(&self, moment: u64) -> bool
        ensures { result ≡ is_out_of_reach self.now.clock moment }
    {
        let now = self.clock.ms();
        moment < now || Moment::try_new(moment).is_none() || now + MOST_AHEAD < moment
    }

    // Does a command that isn't bad.
    fn play<K: Sink>(&mut self, command: Command, output: &mut K) -> Result<(), HubError>
        requires { is_bad_for self.old command ≡ false }

        ensures done { OnOk result (Advances (Does command) self.old self.new (K.held output.old) (K.held output.new)) }
        ensures part { OnErr result (BreaksIn (DoesPart command) self.old (K.held output.old) (K.held output.new)) }
        ensures cause { HasWriteCause (K.faults output.old) (K.faults output.new) result }
        ensures good { result ≡ Err HubError.BadCommand → ⊥ }
    {
        match command {
            Command::Daemon { number, config } => self.boot(number, config, output),
            Command::At { moment } => self.run_to(Moment::new(moment), output),
            Command::Attach { daemon } => self.happen_now(daemon, Event::Attach, output),
            Command::Event { daemon, event } => self.happen_now(daemon, event, output),
            setting => {
                self.set(setting)?;
                Ok(())
            }
        }
    }

    // Sets what a command sets that isn't bad and does nothing to a daemon. Refused only for want of memory; then nothing was set.
    fn set(&mut self, command: Command) -> Result<(), AllocError>
        requires good { is_bad_for self.old command ≡ false }
        requires sets { is_setting command ≡ true }
        ensures sets { is_setting command ≡ true }
        ensures done { OnOk result ((played : Played) → StandsFor self.old played → StandsFor self.new (set_by command played)) }
    {
        match command {
            Command::Word { word } => {
                self.words = Words::Same { word };
                Ok(())
            }
            Command::Seed { seed } => {
                let words = SeedWords::new(seed);
                self.words = Words::Seeded { words };
                Ok(())
            }
            Command::Delay { ms } => {
                self.link.set_delay(ms);
                Ok(())
            }
            Command::Lose { count } => {
                self.link.set_losses(count);
                Ok(())
            }
            Command::Part { left, right } => self.link.part(left, right),
            Command::Meet { left, right } => {
                self.link.meet(left, right);
                Ok(())
            }
            _ => Ok(()),
        }
    }

    fn boot<K: Sink>(&mut self, number: u32, config: Config, output: &mut K) -> Result<(), HubError>
        requires low { 1 ≤ number }
        requires high { number ≤ 16 }
        requires free { is_kept self.old.daemons.slots.items number ≡ false }
        requires host { IsTrue (is_host_label config.host) }

        ensures done { OnOk result (Advances (Boots number config) self.old self.new (K.held output.old) (K.held output.new)) }
        ensures part { OnErr result (BreaksIn (OrNothing (Boots number config)) self.old (K.held output.old) (K.held output.new)) }
        ensures cause { HasWriteCause (K.faults output.old) (K.faults output.new) result }
        ensures good { result ≡ Err HubError.BadCommand → ⊥ }
    {
        // Tells the prover that the moment is at most 2^53.
        let _now = self.clock.ms();
        let word = self.words.take();
        let address = config.address;
        let (daemon, entry) = Standing::new(self.alloc, config, self.clock, word)?;
        let tally = Tally::new();
        let booted = Booted {
            address,
            daemon,
            tally,
        };
        self.daemons.boot(number, booted)?;
        put_entry(self.alloc, number, &entry, output)?;
        Ok(())
    }

    // An event of a daemon at the current moment.
    fn happen_now<K: Sink>(
        &mut self,
        number: u32,
        event: Event,
        output: &mut K,
    ) -> Result<(), HubError>
        requires kept { is_kept self.old.daemons.slots.items number ≡ true }
        requires no_boot { is_boot event ≡ false }

        ensures done { OnOk result (Advances (Happens number event) self.old self.new (K.held output.old) (K.held output.new)) }
        ensures part { OnErr result (BreaksIn (OrNothing (Happens number event)) self.old (K.held output.old) (K.held output.new)) }
        ensures cause { HasWriteCause (K.faults output.old) (K.faults output.new) result }
        ensures good { result ≡ Err HubError.BadCommand → ⊥ }
    {
        let now = self.clock;
        self.happen(number, now, event, output)
    }
}

// Whether an event is a boot.
fn is_boot(event: &Event) -> bool
    ensures { result ≡ is_boot event.now }
{
    matches!(event, Event::Boot { .. })
}

// Whether the label of a host, if there is one, is text without control characters.
#[tactic(auto, unfolding(sd_name::specs::ServiceTypes::is_service_label))]
fn is_host_label(host: &Option<HostConfig>) -> bool
    ensures { result ≡ is_host_label host.now }
{
    match host {
        Some(host) => is_text(host.label.as_slice()) && is_service_label(host.label.as_slice()),
        None => true,
    }
}

fn is_text(bytes: &[u8]) -> bool
    ensures { result ≡ is_utf8 bytes.now }
{
    match str::from_utf8(bytes) {
        Ok(_) => true,
        Err(_) => false,
    }
}
