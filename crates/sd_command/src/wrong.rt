// What is wrong with words that are no command, in words for a person. No clause speaks of it.
use crate::request::{families_word, is_domain, is_string};
use crate::words::{count, next_word, socket};
use bytes::Bytes;
use dns_record::read_kind;
use number_text::read_decimal_u16;
use sd_client::{
    ClientError, address_request, browse_request, query_request, register_request, resolve_request,
};
use std::alloc::{AllocError, Global};

/// Says which of the words is wrong, or what is wanted behind them.
pub fn say_wrong(alloc: Global, words: &[String]) -> Result<String, AllocError> {
    let Some((_path, rest)) = socket(words) else {
        return String::from_str(alloc, "-socket wants a path");
    };
    match count(rest) {
        Some((_count, rest)) => wrong_command(alloc, rest),
        None => match rest {
            [_, number, ..] => {
                format!(in alloc; "-count wants a number from 1 to 1000000, not {number}")
            }
            _ => String::from_str(alloc, "-count wants a number from 1 to 1000000"),
        },
    }
}

// What is wrong with a command.
fn wrong_command(alloc: Global, words: &[String]) -> Result<String, AllocError> {
    let Some((command, rest)) = next_word(words) else {
        return String::from_str(alloc, "a command is wanted");
    };
    match command {
        "-B" => wrong_browse(alloc, rest),
        "-L" => wrong_resolve(alloc, rest),
        "-R" => wrong_register(alloc, rest),
        "-Q" => wrong_query(alloc, rest),
        "-G" => wrong_address(alloc, rest),
        _ => format!(in alloc; "{command} is no command"),
    }
}

// What is wrong behind `-B`.
fn wrong_browse(alloc: Global, words: &[String]) -> Result<String, AllocError> {
    match words {
        [] => String::from_str(alloc, "-B wants a service type, as _ipp._tcp"),
        [regtype, rest @ ..] if fits_type(alloc, regtype.as_str()) => wrong_end(alloc, rest),
        [regtype, ..] => no_type(alloc, regtype.as_str()),
    }
}

// What is wrong behind `-L`.
fn wrong_resolve(alloc: Global, words: &[String]) -> Result<String, AllocError> {
    match words {
        [label, regtype, rest @ ..] => {
            if !fits_type(alloc, regtype.as_str()) {
                return no_type(alloc, regtype.as_str());
            }
            if !fits_instance(alloc, label.as_str(), regtype.as_str()) {
                return no_label(alloc, label.as_str());
            }
            wrong_end(alloc, rest)
        }
        _ => String::from_str(
            alloc,
            "-L wants the name of an instance and its service type",
        ),
    }
}

// What is wrong behind `-R`.
fn wrong_register(alloc: Global, words: &[String]) -> Result<String, AllocError> {
    match words {
        [label, regtype, domain, port, strings @ ..] => {
            if !fits_type(alloc, regtype.as_str()) {
                return no_type(alloc, regtype.as_str());
            }
            if !fits_service(alloc, label.as_str(), regtype.as_str()) {
                return no_label(alloc, label.as_str());
            }
            if !is_domain(domain.as_str()) {
                return no_domain(alloc, domain.as_str());
            }
            if is_port(port.as_str()) {
                wrong_strings(alloc, strings)
            } else {
                no_port(alloc, port.as_str())
            }
        }
        _ => String::from_str(
            alloc,
            "-R wants a name, a service type, a domain (local) and a port",
        ),
    }
}

// What is wrong with the strings of TXT data.
fn wrong_strings(alloc: Global, strings: &[String]) -> Result<String, AllocError> {
    for string in strings {
        if !is_string(string.as_str()) {
            return format!(in alloc; "{string} has more than 255 bytes");
        }
    }
    String::from_str(alloc, "the TXT strings are too long")
}

// What is wrong behind `-Q`.
fn wrong_query(alloc: Global, words: &[String]) -> Result<String, AllocError> {
    match words {
        [] => String::from_str(alloc, "-Q wants a name"),
        [name, ..] if !is_name(name.as_str()) => no_name(alloc, name.as_str()),
        [_, kind, ..] if read_kind(kind.as_str().as_bytes()).is_none() => {
            no_kind(alloc, kind.as_str())
        }
        [_, _, class, ..] if class.as_str() != "IN" => no_class(alloc, class.as_str()),
        [_, _, _, word, ..] => too_many(alloc, word.as_str()),
        _ => String::from_str(alloc, "the words are no command"),
    }
}

// What is wrong behind `-G`.
fn wrong_address(alloc: Global, words: &[String]) -> Result<String, AllocError> {
    match words {
        [families, ..] if families_word(families.as_str()).is_none() => {
            no_families(alloc, families.as_str())
        }
        [_, name, ..] if !is_host(name.as_str()) => no_name(alloc, name.as_str()),
        [_, _, word, ..] => too_many(alloc, word.as_str()),
        _ => String::from_str(alloc, "-G wants v4, v6 or v4v6, and a name"),
    }
}

// What is wrong behind the words that a domain ends.
fn wrong_end(alloc: Global, words: &[String]) -> Result<String, AllocError> {
    match words {
        [domain, ..] if !is_domain(domain.as_str()) => no_domain(alloc, domain.as_str()),
        [_, word, ..] => too_many(alloc, word.as_str()),
        _ => String::from_str(alloc, "the words are no command"),
    }
}

// Whether a text is short enough for a service type. Whether it is one the daemon tells.
fn fits_type(alloc: Global, regtype: &str) -> bool {
    !is_bad(&browse_request(alloc, regtype))
}

// Whether a text may be the name of an instance of a service type that is short enough.
fn fits_instance(alloc: Global, label: &str, regtype: &str) -> bool {
    !is_bad(&resolve_request(alloc, label, regtype))
}

// Whether a text may be the name of a service to register, of a type that is short enough.
fn fits_service(alloc: Global, label: &str, regtype: &str) -> bool {
    let none = Bytes::new();
    !is_bad(&register_request(alloc, 0, (label, regtype), 1, &none))
}

// Whether a text is a name.
fn is_name(name: &str) -> bool {
    !is_bad(&query_request(name, 1))
}

// Whether a text is the name of a host.
fn is_host(name: &str) -> bool {
    !is_bad(&address_request(3, name))
}

// Whether a text is a port.
fn is_port(text: &str) -> bool {
    match read_decimal_u16(text.as_bytes()) {
        Some(port) => port != 0,
        None => false,
    }
}

// Whether words were refused, and not for want of memory.
fn is_bad<T>(made: &Result<T, ClientError>) -> bool {
    matches!(made, Err(ClientError::BadParam))
}

fn no_type(alloc: Global, regtype: &str) -> Result<String, AllocError> {
    format!(in alloc; "{regtype} is no service type, as _ipp._tcp")
}

fn no_label(alloc: Global, label: &str) -> Result<String, AllocError> {
    format!(in alloc; "{label} is no name of an instance: 1 to 63 bytes without control characters")
}

fn no_name(alloc: Global, name: &str) -> Result<String, AllocError> {
    format!(in alloc; "{name} is no name, as printer.local")
}

fn no_port(alloc: Global, port: &str) -> Result<String, AllocError> {
    format!(in alloc; "{port} is no port: 1 to 65535")
}

fn no_kind(alloc: Global, kind: &str) -> Result<String, AllocError> {
    format!(in alloc; "{kind} is no type of records, as A, PTR or TYPE65")
}

fn no_class(alloc: Global, class: &str) -> Result<String, AllocError> {
    format!(in alloc; "{class} is no class: only IN")
}

fn no_families(alloc: Global, families: &str) -> Result<String, AllocError> {
    format!(in alloc; "{families} is no kind of addresses: v4, v6 or v4v6")
}

fn no_domain(alloc: Global, domain: &str) -> Result<String, AllocError> {
    format!(in alloc; "{domain} is no domain that is served: only local")
}

fn too_many(alloc: Global, word: &str) -> Result<String, AllocError> {
    format!(in alloc; "{word} is a word too many")
}
