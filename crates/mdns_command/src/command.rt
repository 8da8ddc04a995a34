// What the command line asks for.
ghost use Rattle.std.specs.Prelude.{◌≡◌, ◌≢◌, ◌⊎◌, ◌↔◌, ◌≤◌, true, None, Some, Ok, Err, IfOk, IfErr, IfSome, MatchOption};
ghost use Rattle.std.specs.IoError.{error_kind};
ghost use Rattle.mdns_words.specs.Options.{texts};
ghost use Rattle.mdns_command.specs.Words.{AreNoCommand, LackMemory, told, script_words, names_script, behind_serve, count_of, gen_number};

use crate::stop::USAGE;
use mdns_play::NO_MEMORY;
use number_text::read_decimal;
use std::alloc::{AllocError, Global};
use std::env::Args;
use std::io;
use std::io::ErrorKind;

/// The words behind the program's own name. The error is the status: 2 where a word is no text, 6 for want of memory.
pub fn words_of(alloc: Global, args: io::Result<Args>) -> Result<Vec<String>, u8>
    ensures words { IfOk result (λ words. told args ≡ Some (texts words.items)) }
    ensures status { IfErr result (λ status. ((status ≡ 2) × AreNoCommand args) ⊎ (status ≡ 6)) }
    ensures lacking { LackMemory args → result ≡ Err 6 }
{
    match args {
        Ok(args) => match behind_name(alloc, args) {
            Ok(words) => Ok(words),
            Err(_) => Err(NO_MEMORY),
        },
        Err(error) => Err(unread_status(&error)),
    }
}

// The words behind the first. Refused only for want of memory.
fn behind_name(alloc: Global, mut args: Args) -> Result<Vec<String>, AllocError>
    ensures { IfOk result (λ words. told (Ok args) ≡ Some (texts words.items)) }
{
    let mut words = Vec::new(alloc);
    let _program = args.next();
    'words: while let Some(word) = args.next() {
        words.push(word)?;
    }
    Ok(words)
}

// The status where the words can't be read: memory was refused, or a word is no text.
fn unread_status(error: &io::Error) -> u8
    ensures memory { error_kind error.now ≡ ErrorKind.OutOfMemory → result ≡ 6 }
    ensures usage { error_kind error.now ≢ ErrorKind.OutOfMemory → result ≡ 2 }
{
    if matches!(error.kind(), ErrorKind::OutOfMemory) {
        NO_MEMORY
    } else {
        USAGE
    }
}

/// Whether the one word is `script`.
pub fn is_script(words: &[String]) -> bool
    ensures { (result ≡ true) ↔ (texts words.now ≡ script_words) }
{
    names_script(words)
}

fn names_script(words: &[String]) -> bool
    ensures { result ≡ names_script (texts words.now) }
{
    match words {
        [word] => word.as_str() == "script",
        _ => false,
    }
}

/// The number of the script that `gen` and a number from 1 to 200 ask for.
pub fn gen_number(words: &[String]) -> Option<u32>
    ensures number { result ≡ gen_number (texts words.now) }
    ensures low { IfSome result (λ n. 1 ≤ n) }
    ensures high { IfSome result (λ n. n ≤ 200) }
{
    match words {
        [word, digits] if word.as_str() == "gen" => count_of(digits.as_str().as_bytes()),
        _ => None,
    }
}

// A number from 1 to 200, in decimal digits without a sign or a leading zero.
fn count_of(digits: &[u8]) -> Option<u32>
    ensures number { result ≡ count_of digits.now }
    ensures low { IfSome result (λ n. 1 ≤ n) }
    ensures high { IfSome result (λ n. n ≤ 200) }
{
    let number = read_decimal(digits)?;
    if 1 <= number && number <= 200 {
        Some(number as u32)
    } else {
        None
    }
}

/// The words behind `serve`, where it is the first.
pub fn serve_words(words: &[String]) -> Option<&[String]>
    ensures { MatchOption result (behind_serve (texts words.now) ≡ None) (λ behind. behind_serve (texts words.now) ≡ Some (texts behind.now)) }
{
    match words {
        [first, behind @ ..] if first.as_str() == "serve" => Some(behind),
        _ => None,
    }
}
