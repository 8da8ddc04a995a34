// What is wrong with the words of `serve`, for a person. No clause speaks of it.
use mdns_words::serve_words;
use std::alloc::{AllocError, Global};

/// How the words of the command are written.
const FORM: &str =
    "mdnsd serve --socket PATH --host LABEL --address IPV4 --relay PORT [--seed N] [PEER ...]";

/// The options: what each is called, a value that it may have, and what its value is to be.
const OPTIONS: [(&str, &str, &str); 5] = [
    ("--socket", "s", "a path"),
    (
        "--host",
        "h",
        "a name of 1 to 63 bytes without control characters",
    ),
    ("--address", "10.0.0.1", "an IPv4 address as 10.0.0.1"),
    ("--relay", "5000", "a port from 1 to 65535"),
    ("--seed", "1", "a number below 4294967296"),
];

/// The options that have to be given.
const NEEDED: [&str; 4] = ["--socket", "--host", "--address", "--relay"];

/// A line that says which of the words behind `serve` isn't as it should be, and how they are written. Refused only for want
/// of memory.
pub fn say_wrong(alloc: Global, words: &[String]) -> Result<String, AllocError> {
    let wrong = wrong_in(alloc, words)?;
    format!(in alloc; "{wrong}; the form is: {FORM}")
}

// What is wrong first.
fn wrong_in(alloc: Global, words: &[String]) -> Result<String, AllocError> {
    let mut given: Vec<&str> = Vec::new(alloc);
    let mut rest = words.iter();
    while let Some(word) = rest.next() {
        let word = word.as_str();
        if let Some(wrong) = wrong_word(alloc, word, &given)? {
            return Ok(wrong);
        }
        if !word.starts_with("--") {
            continue;
        }
        given.push(word)?;
        let Some(value) = rest.next() else {
            return format!(in alloc; "{word} has no value");
        };
        if let Some(wrong) = wrong_value(alloc, word, value.as_str())? {
            return Ok(wrong);
        }
    }
    missing(alloc, &given)
}

// What is wrong where an option or a peer is wanted, behind these options.
fn wrong_word(alloc: Global, word: &str, given: &[&str]) -> Result<Option<String>, AllocError> {
    if !word.starts_with("--") {
        if is_good(alloc, word, "", word)? {
            return Ok(None);
        }
        return Ok(Some(format!(in alloc;
            "{word} is no option and no peer's port from 1 to 65535"
        )?));
    }
    if !OPTIONS.iter().any(|(name, _, _)| *name == word) {
        return Ok(Some(format!(in alloc; "{word} is no option")?));
    }
    if given.iter().any(|other| *other == word) {
        return Ok(Some(format!(in alloc; "{word} is given twice")?));
    }
    Ok(None)
}

// What is wrong with the value of an option.
fn wrong_value(alloc: Global, option: &str, value: &str) -> Result<Option<String>, AllocError> {
    for (name, _, wanted) in OPTIONS {
        if name == option && !is_good(alloc, "5001", option, value)? {
            return Ok(Some(format!(in alloc; "{option} wants {wanted}, not {value}")?));
        }
    }
    Ok(None)
}

// Whether words with this peer, and with this value for an option, are as they should be.
fn is_good(alloc: Global, peer: &str, option: &str, value: &str) -> Result<bool, AllocError> {
    let mut words = Vec::new(alloc);
    words.push(String::from_str(alloc, peer)?)?;
    for (name, sample, _) in OPTIONS {
        words.push(String::from_str(alloc, name)?)?;
        let value = if name == option { value } else { sample };
        words.push(String::from_str(alloc, value)?)?;
    }
    Ok(serve_words(alloc, words.as_slice())?.is_some())
}

// Which option is missing, where these are given.
fn missing(alloc: Global, given: &[&str]) -> Result<String, AllocError> {
    for name in NEEDED {
        if !given.iter().any(|other| *other == name) {
            return format!(in alloc; "{name} is missing");
        }
    }
    String::from_str(alloc, "the words aren't as they should be")
}
