// What a person is told of scripts: the lines that there are, and which word of a bad line was wanted. No clause speaks of it.
use mdns_play::next_line;
use mdns_script::{Line, read_line};
use number_text::{cut_at, is_same};
use std::alloc::{AllocError, Global};

/// The lines of a script.
pub const SCRIPT_HELP: &str = "usage: mdnsd script < SCRIPT > TRANSCRIPT

Plays a script for up to sixteen daemons on a link, and prints what they do. The lines of a script:

  daemon K              boots daemon K (1 to 16) without a host, at the address 10.0.0.K
  daemon K host LABEL IPV4 [IPV6]
                        boots daemon K with a host of that name under local
  at T                  runs all that is due up to T milliseconds
  word W                gives every later event the random word W
  seed S                gives every later event the next random word of the seed S
  delay D               lets packets that are sent from now on arrive D milliseconds later (1 to 10000)
  lose N                lets the next N packets be lost
  part A B              parts the daemons A and B
  meet A B              lets them hear each other again
  open K                attaches a session
  close K S             detaches session S
  take K S N            takes at most N items of session S
  hear K IPV4 PORT HEX  lets the daemon hear a packet
  call K S OP REQUEST   a call of session S

REQUEST is query KIND NAME, browse TYPE, resolve LABEL TYPE, address v4|v6|both NAME,
register LABEL TYPE PORT auto|norename TXT, update TXT, or stop.";

/// The words of a form in order: how each is called, and one that may stand there. Where both are the same, it is that very word.
type Form = &'static [(&'static str, &'static str)];

const FORMS: [Form; 21] = [
    &[
        ("daemon", "daemon"),
        ("K", "1"),
        ("host", "host"),
        ("LABEL", "h"),
        ("IPV4 [IPV6]", "10.0.0.1"),
    ],
    &[("daemon", "daemon"), ("K", "1")],
    &[("at", "at"), ("T", "0")],
    &[("word", "word"), ("W", "0")],
    &[("seed", "seed"), ("S", "0")],
    &[("delay", "delay"), ("D", "1")],
    &[("lose", "lose"), ("N", "0")],
    &[("part", "part"), ("A", "1"), ("B", "2")],
    &[("meet", "meet"), ("A", "1"), ("B", "2")],
    &[("open", "open"), ("K", "1")],
    &[("close", "close"), ("K", "1"), ("S", "1")],
    &[("take", "take"), ("K", "1"), ("S", "1"), ("N", "1")],
    &[
        ("hear", "hear"),
        ("K", "1"),
        ("IPV4", "10.0.0.9"),
        ("PORT", "5353"),
        ("HEX", "-"),
    ],
    &[
        ("call", "call"),
        ("K", "1"),
        ("S", "1"),
        ("OP", "1"),
        ("query", "query"),
        ("KIND", "A"),
        ("NAME", "a.local"),
    ],
    &[
        ("call", "call"),
        ("K", "1"),
        ("S", "1"),
        ("OP", "1"),
        ("browse", "browse"),
        ("TYPE", "_ipp._tcp"),
    ],
    &[
        ("call", "call"),
        ("K", "1"),
        ("S", "1"),
        ("OP", "1"),
        ("resolve", "resolve"),
        ("LABEL", "a"),
        ("TYPE", "_ipp._tcp"),
    ],
    &[
        ("call", "call"),
        ("K", "1"),
        ("S", "1"),
        ("OP", "1"),
        ("address", "address"),
        ("v4|v6|both", "v4"),
        ("NAME", "a.local"),
    ],
    &[
        ("call", "call"),
        ("K", "1"),
        ("S", "1"),
        ("OP", "1"),
        ("register", "register"),
        ("LABEL", "a"),
        ("TYPE", "_ipp._tcp"),
        ("PORT", "631"),
        ("auto|norename", "auto"),
        ("TXT", "-"),
    ],
    &[
        ("call", "call"),
        ("K", "1"),
        ("S", "1"),
        ("OP", "1"),
        ("update", "update"),
        ("TXT", "-"),
    ],
    &[
        ("call", "call"),
        ("K", "1"),
        ("S", "1"),
        ("OP", "1"),
        ("stop", "stop"),
    ],
    &[
        ("call", "call"),
        ("K", "1"),
        ("S", "1"),
        ("OP", "1"),
        ("REQUEST", "stop"),
    ],
];

/// What is said of the line with this number, the first being 1; nothing where the bytes end before it.
pub fn note_on(alloc: Global, script: &[u8], number: u64) -> Result<String, AllocError> {
    let mut rest = script;
    let mut left = number;
    'lines: while let Some((line, after)) = next_line(rest) {
        left = left.saturating_sub(1);
        if left == 0 {
            let wanted = wanted(alloc, line)?;
            return format!(in alloc; "line {number}: {wanted}");
        }
        rest = after;
    }
    format!(in alloc; "line {number} is bad")
}

// What was wanted in a line.
fn wanted(alloc: Global, line: &[u8]) -> Result<String, AllocError> {
    for form in FORMS {
        let words = words_of_line(alloc, line, form.len())?;
        if begins_as(form, &words) {
            return wanted_of(alloc, form, &words);
        }
    }
    String::from_str(
        alloc,
        "daemon, at, word, seed, delay, lose, part, meet, open, close, take, hear or call is wanted as word 1",
    )
}

// The words of a line, at most so many; the last has all that is left.
fn words_of_line(alloc: Global, line: &[u8], most: usize) -> Result<Vec<&[u8]>, AllocError> {
    let mut words = Vec::new(alloc);
    let mut rest = line;
    for _ in 1..most {
        let Some((word, after)) = cut_at(rest, b' ') else {
            break;
        };
        words.push(word)?;
        rest = after;
    }
    words.push(rest)?;
    Ok(words)
}

// Whether the line has each word of the form that stands for itself.
fn begins_as(form: Form, words: &[&[u8]]) -> bool {
    form.iter().enumerate().all(|(place, (name, sample))| {
        name != sample
            || words
                .get(place)
                .is_some_and(|word| is_same(word, sample.as_bytes()))
    })
}

// Which word of the form was wanted.
fn wanted_of(alloc: Global, form: Form, words: &[&[u8]]) -> Result<String, AllocError> {
    let mut shown = String::new(alloc);
    for (name, _) in form {
        if !shown.is_empty() {
            shown.push(' ')?;
        }
        shown.push_str(name)?;
    }
    for place in 0..form.len() {
        if place >= words.len() || !may_stand(alloc, form, place, words[place])? {
            let name = form[place].0;
            let number = place + 1;
            return format!(in alloc; "{name} is wanted as word {number} of `{shown}`");
        }
    }
    format!(in alloc; "`{shown}` isn't in place here")
}

// Whether the word may stand at its place in the form: whether a line of the form with it is read.
fn may_stand(alloc: Global, form: Form, place: usize, word: &[u8]) -> Result<bool, AllocError> {
    let mut line = Vec::new(alloc);
    for (at, (_, sample)) in form.iter().enumerate() {
        if at > 0 {
            line.extend_from_slice(b" ")?;
        }
        line.extend_from_slice(if at == place { word } else { sample.as_bytes() })?;
    }
    Ok(matches!(read_line(alloc, &line)?, Line::Command(_)))
}
