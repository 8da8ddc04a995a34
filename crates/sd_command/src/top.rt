// The call that the program makes.
ghost use Rattle.std.specs.Prelude.{◌≡◌, ◌≢◌, ◌⊎◌, ◌+◌, ◌<◌, false, IsTrue, IfSome};
ghost use Rattle.sd_ipc.specs.Frames.{is_short, request_frame};
ghost use Rattle.sd_ipc.specs.Taking.{Told};
ghost use Rattle.sd_command.specs.Commands.{texts, Asked};
ghost use Rattle.sd_command.specs.Endings.{status_of};
ghost use Rattle.sd_command.specs.Hearing.{Heard};
ghost use Rattle.sd_command.specs.Runs.{World, Says, HasRisen, FindsNone, Talks, Runs};
ghost use Rattle.sd_command.specs.declared.ending.Ending.{Ending};

use crate::ending::Ending;
use crate::listen::listen;
use crate::request::request;
use crate::words::{count, socket};
use mdns_base::{Sink, Source};
use mdns_outside::Plug;
use sd_call::Request;
use sd_client::{Client, ClientError};
use std::alloc::Global;

/// All that the program does with the words of its command line, which leave out its own name:
/// `[-socket PATH] [-count N]` and a command. It connects to the daemon, sends the request of the command, and prints
/// `Add` or `Rmv` and each answer that comes or goes, a line each, until N such lines were printed. The answer is the
/// status:
/// - 0: exactly where N lines were printed. Without `-count` it never comes.
/// - 1: exactly where the words are no command. Nothing is asked, said or printed.
/// - 2: only where the plug's count of faults rose: there is no daemon, or the connection failed.
/// - 3: exactly where the daemon refused the request. The line `refused CODE` is printed behind the others.
/// - 4: exactly where the daemon ended the connection between items.
/// - 5: only where the output's count of faults rose.
/// - 6: memory was refused.
/// - 7: exactly where what came is no item.
/// - 8: exactly where 4,294,967,295 items came, and the count wasn't reached.
///
/// The connection goes back to the plug before the answer.
pub fn dns_sd<P: Plug, K: Sink>(alloc: Global, words: &[String], plug: &mut P, output: &mut K) -> u8
    ensures { (ending : Ending) × (result ≡ status_of ending) × Runs (texts words.now) ending
        (record {
          asked = P.asked plug.old;
          coming = P.coming plug.old;
          said = P.said plug.old;
          plug_faults = P.faults plug.old;
          held = K.held output.old;
          output_faults = K.faults output.old;
        })
        (record {
          asked = P.asked plug.new;
          coming = P.coming plug.new;
          said = P.said plug.new;
          plug_faults = P.faults plug.new;
          held = K.held output.new;
          output_faults = K.faults output.new;
        }) }
{
    run(alloc, words, plug, output) as u8
}

// Runs the words.
fn run<P: Plug, K: Sink>(alloc: Global, words: &[String], plug: &mut P, output: &mut K) -> Ending
    ensures { Runs (texts words.now) result
        (record {
          asked = P.asked plug.old;
          coming = P.coming plug.old;
          said = P.said plug.old;
          plug_faults = P.faults plug.old;
          held = K.held output.old;
          output_faults = K.faults output.old;
        })
        (record {
          asked = P.asked plug.new;
          coming = P.coming plug.new;
          said = P.said plug.new;
          plug_faults = P.faults plug.new;
          held = K.held output.new;
          output_faults = K.faults output.new;
        }) }
{
    let Some((socket, rest)) = socket(words) else {
        return Ending::Usage;
    };
    let Some((count, rest)) = count(rest) else {
        return Ending::Usage;
    };
    match request(alloc, rest) {
        Ok(request) => {
            let command = Command {
                socket,
                count,
                request,
            };
            ask(alloc, &command, plug, output)
        }
        Err(ClientError::BadParam) => Ending::Usage,
        Err(_) => Ending::NoMemory,
    }
}

// What the words ask for: at which socket, how many lines, and the request.
#[derive(Drop)]
struct Command<'a> {
    socket: &'a str,
    count: Option<u32>,
    request: Request,
}

// Connects to the daemon, talks to it, and gives the connection back.
fn ask<P: Plug, K: Sink>(alloc: Global, command: &Command, plug: &mut P, output: &mut K) -> Ending
    requires some { IfSome command.now.count (λ most. 0 < most) }
    requires short { IsTrue (is_short command.now.request) }
    ensures { let asked : Asked = record { socket = command.now.socket.now; count = command.now.count; request = command.now.request } in
        let old : World = record {
          asked = P.asked plug.old;
          coming = P.coming plug.old;
          said = P.said plug.old;
          plug_faults = P.faults plug.old;
          held = K.held output.old;
          output_faults = K.faults output.old;
        } in
        let new : World = record {
          asked = P.asked plug.new;
          coming = P.coming plug.new;
          said = P.said plug.new;
          plug_faults = P.faults plug.new;
          held = K.held output.new;
          output_faults = K.faults output.new;
        } in
        FindsNone asked result old new ⊎ Talks asked result old new }
{
    let Ok(mut client) = Client::connect(alloc, plug, command.socket) else {
        return Ending::PeerFault;
    };
    let ending = talk(alloc, &mut client, command, output);
    let (input, sink) = client.parts();
    plug.back(input, sink);
    ending
}

// Sends the request over a new connection, and prints what comes.
fn talk<S: Source + Drop, T: Sink + Drop, K: Sink>(
    alloc: Global,
    client: &mut Client<S, T>,
    command: &Command,
    output: &mut K,
) -> Ending
    requires going { client.old.over ≡ false }
    requires first { client.old.next ≡ 1 }
    requires quiet { (client.old.source_faults ≡ 0) × (client.old.sink_faults ≡ 0) }
    requires some { IfSome command.now.count (λ most. 0 < most) }
    requires short { IsTrue (is_short command.now.request) }
    ensures heard { Told client.old.left (λ bytes. Heard command.now.count bytes result (K.held output.old) (K.held output.new)) }
    ensures said { Says result (request_frame 1 command.now.request) client.old.said client.new.said }
    ensures used { result ≢ Ending.Usage }
    ensures fault { result ≡ Ending.PeerFault → 0 < client.new.source_faults + client.new.sink_faults }
    ensures quiet { result ≢ Ending.PeerFault → (client.new.source_faults ≡ 0) × (client.new.sink_faults ≡ 0) }
    ensures output_cause { HasRisen result Ending.WriteFault (K.faults output.old) (K.faults output.new) }
{
    match client.start(&command.request) {
        Ok(_) => listen(alloc, client, command.count, output),
        Err(error) => Ending::from(error),
    }
}
