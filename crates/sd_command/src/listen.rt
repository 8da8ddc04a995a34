// What comes from the daemon, printed line by line.
ghost use Rattle.std.specs.Prelude.{◌≡◌, ◌≢◌, ◌<◌, false, Err, IfSome};
ghost use Rattle.mdns_base.specs.Outside.{HasCause, PutAppends};
ghost use Rattle.sd_ipc.specs.Taking.{Told};
ghost use Rattle.sd_command.specs.Hearing.{Heard};
ghost use Rattle.sd_command.specs.Steps.{Prints, Steps};
ghost use Rattle.sd_command.specs.Runs.{HasRisen};

use crate::ending::Ending;
use crate::lines::{is_answer, is_refusal, item_line};
use mdns_base::{Failed, Sink, Source};
use sd_call::Item;
use sd_client::Client;
use std::alloc::Global;

/// Takes the items that come, and prints each line at once, until as many lines of answers were printed as are asked for,
/// the daemon refuses the request or ends the connection, or something fails.
pub fn listen<S: Source + Drop, T: Sink + Drop, K: Sink>(
    alloc: Global,
    client: &mut Client<S, T>,
    count: Option<u32>,
    output: &mut K,
) -> Ending
    requires going { client.old.over ≡ false }
    requires some { IfSome count (λ most. 0 < most) }
    ensures heard { Told client.old.left (λ bytes. Heard count bytes result (K.held output.old) (K.held output.new)) }
    ensures used { result ≢ Ending.Usage }
    ensures kept { (client.new.said ≡ client.old.said) × (client.new.sink_faults ≡ client.old.sink_faults) }
    ensures cause { HasRisen result Ending.PeerFault client.old.source_faults client.new.source_faults }
    ensures output_cause { HasRisen result Ending.WriteFault (K.faults output.old) (K.faults output.new) }
{
    let mut lines = 0u32;
    'items: for _ in 0..u32::MAX {
        match next_line(alloc, client, count, lines, output) {
            Ok(next) => lines = next,
            Err(ending) => return ending,
        }
    }
    Ending::TooMany
}

// Takes one item and prints its line, if it has one. The answer is how many lines of answers were printed then.
fn next_line<S: Source + Drop, T: Sink + Drop, K: Sink>(
    alloc: Global,
    client: &mut Client<S, T>,
    count: Option<u32>,
    lines: u32,
    output: &mut K,
) -> Result<u32, Ending>
    requires going { client.old.over ≡ false }
    requires few { lines < 4294967295 }
    requires below { IfSome count (λ most. lines < most) }
    ensures step { Steps count lines client.old client.new (K.held output.old) (K.held output.new) result }
    ensures kept { (client.new.said ≡ client.old.said) × (client.new.sink_faults ≡ client.old.sink_faults) }
    ensures cause { HasRisen result (Err Ending.PeerFault) client.old.source_faults client.new.source_faults }
    ensures output_cause { HasRisen result (Err Ending.WriteFault) (K.faults output.old) (K.faults output.new) }
{
    let item = client.process_result()?;
    print(alloc, &item, count, lines, output)
}

// Prints the line of an item, if it has one.
fn print<K: Sink>(
    alloc: Global,
    item: &Item,
    count: Option<u32>,
    lines: u32,
    output: &mut K,
) -> Result<u32, Ending>
    requires few { lines < 4294967295 }
    requires below { IfSome count (λ most. lines < most) }
    ensures printed { Prints count lines item.now (K.held output.old) (K.held output.new) result }
    ensures cause { HasRisen result (Err Ending.WriteFault) (K.faults output.old) (K.faults output.new) }
{
    let line = item_line(alloc, item)?;
    match put_whole(line.as_slice(), output) {
        Err(_) => Err(Ending::WriteFault),
        Ok(()) if is_refusal(item) => Err(Ending::Refused),
        Ok(()) if !is_answer(item) => Ok(lines),
        Ok(()) if count == Some(lines + 1) => Err(Ending::Done),
        Ok(()) => Ok(lines + 1),
    }
}

// Puts a line as one piece, and nothing where it is empty.
fn put_whole<K: Sink>(line: &[u8], output: &mut K) -> Result<(), Failed>
    ensures bytes { PutAppends (K.held output.old) (K.held output.new) result line.now }
    ensures cause { HasCause (K.faults output.old) (K.faults output.new) result }
{
    if line.is_empty() {
        return Ok(());
    }
    output.put(line)
}
