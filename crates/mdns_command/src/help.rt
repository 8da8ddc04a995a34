// What the words for help and for the version print.
use crate::notes::SCRIPT_HELP;

/// The version of the program.
const VERSION: &str = "mdnsd 0.1";

/// The commands.
pub const HELP: &str =
    "usage: mdnsd script < SCRIPT > TRANSCRIPT    plays a script for up to sixteen daemons
       mdnsd gen N                          plays a script that it makes of N (1 to 200)
       mdnsd serve OPTIONS                  serves clients until it is stopped
       mdnsd script --help                  the lines of a script
       mdnsd gen --help                     what that script does
       mdnsd serve --help                   the options of serve
       mdnsd --version";

/// What `gen` plays and prints.
const GEN_HELP: &str = "usage: mdnsd gen N

Plays a script that is made of N, from 1 to 200, and prints a summary of it. Daemon 1 announces N services of seven types, 64 in a
session. Daemon 2 browses for the seven types. After ten seconds the sessions of daemon 1 end.

  gen N      the number
  named A    how many names the services got
  found F    how many of them daemon 2 found
  lost L     how many of those it lost

Status: 2 the words are wrong, 5 standard output failed, 6 out of memory.";

/// What can be typed behind `serve`.
const SERVE_HELP: &str =
    "usage: mdnsd serve --socket PATH --host LABEL --address IPV4 --relay PORT [--seed N] [PEER ...]

Serves clients (dns-sd) at a Unix socket, and speaks Multicast DNS with its peers over UDP on this machine. When clients
can connect, it prints the line `serving`. It runs until it is stopped.

  --socket PATH   where clients connect; only the user who runs mdnsd may. A socket that an earlier mdnsd left is replaced
  --host LABEL    the name that the daemon claims for its address, under local: 1 to 63 bytes without control characters
  --address IPV4  the address that the daemon has on the link, as 10.0.0.1
  --relay PORT    its own UDP port on 127.0.0.1, from 1 to 65535
  --seed N        from what its random delays are drawn, below 4294967296; 1 where it isn't given
  PEER            the relay port of another daemon; any number of them

Status: 2 the words are wrong, 5 standard output failed, 6 out of memory, 9 the socket failed, 10 a thread couldn't be
started, 11 the relay failed.";

/// What words ask to be told, before any command is looked at; nothing where they are no words for that.
pub fn help_for(words: &[String]) -> Option<&'static str> {
    match words {
        [word] if is_help(word.as_str()) => Some(HELP),
        [word] if word.as_str() == "--version" => Some(VERSION),
        [command, word] if is_help(word.as_str()) => help_on(command.as_str()),
        [command, word] if word.as_str() == "--version" && help_on(command.as_str()).is_some() => {
            Some(VERSION)
        }
        _ => None,
    }
}

// Whether a word asks for help.
fn is_help(word: &str) -> bool {
    word == "--help" || word == "-h" || word == "help"
}

// The help on a command, where it is one.
fn help_on(command: &str) -> Option<&'static str> {
    match command {
        "script" => Some(SCRIPT_HELP),
        "gen" => Some(GEN_HELP),
        "serve" => Some(SERVE_HELP),
        _ => None,
    }
}
