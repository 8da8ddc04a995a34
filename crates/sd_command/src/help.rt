// What the words for help and for the version print.

/// The commands.
pub const HELP: &str = "usage: dns-sd [-socket PATH] [-count N] COMMAND
  -B TYPE [DOMAIN]                      the instances of a service type, as _ipp._tcp
  -L NAME TYPE [DOMAIN]                 where an instance is reached, and its TXT data
  -R NAME TYPE DOMAIN PORT [TXT ...]    registers a service until the program ends
  -Q NAME [RRTYPE [IN]]                 the records of a name, of type A where none is given
  -G v4|v6|v4v6 NAME                    the addresses of a name
PATH is mdnsd.sock and DOMAIN local where they aren't given. -count ends the program after N lines.";

/// The version of the program.
const VERSION: &str = "dns-sd 0.1";

/// What words ask to be told, before any command is looked at; nothing where they are no words for that.
pub fn help_for(words: &[String]) -> Option<&'static str> {
    match words {
        [word] if is_help(word.as_str()) => Some(HELP),
        [word] if word.as_str() == "--version" => Some(VERSION),
        _ => None,
    }
}

// Whether a word asks for help.
fn is_help(word: &str) -> bool {
    word == "--help" || word == "-h" || word == "help"
}
