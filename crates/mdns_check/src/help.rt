// What the words for help and for the version print.

/// The version of the program.
const VERSION: &str = "mdns-check 0.1";

/// What can be typed, and what comes of it.
const HELP: &str = "usage: mdns-check < TRANSCRIPT

Says whether the history of each daemon in a transcript of `mdnsd script` is legal, in one line:

  legal N       it is, in all of the N entries
  illegal N     entry N is the first with which the history of its daemon isn't
  bad line N    the text is no transcript, which is seen at line N

Status: 0 legal, 1 illegal, 2 there are words, 3 bad line, 4 standard input failed, 5 standard output failed, 6 out of memory,
8 there are more than 1048576 bytes.";

/// What a lone word asks to be told; nothing where it is no word for that.
pub fn help_for(words: &[String]) -> Option<&'static str> {
    match words {
        [word] => match word.as_str() {
            "--help" | "-h" | "help" => Some(HELP),
            "--version" => Some(VERSION),
            _ => None,
        },
        _ => None,
    }
}
