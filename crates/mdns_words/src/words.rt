// The words, one after the other.
ghost use Rattle.std.specs.Prelude.{◌≡◌, ◌∷◌, [], None, IfOk, MatchOption};
ghost use Rattle.mdns_words.specs.Options.{no_options, options_from, is_option, texts};

use crate::options::Options;
use std::alloc::{AllocError, Global};

/// What options and peers the words give; none where they aren't as they should be.
pub(crate) fn read_options(alloc: Global, words: &[String]) -> Result<Option<Options>, AllocError>
    ensures { IfOk result (λ found. found ≡ options_from no_options None (texts words.now)) }
{
    let mut options = Options::new(alloc);
    let mut rest = words;
    'words: while let Some((word, after)) = next_word(rest) {
        if is_option(word) {
            let Some((value, more)) = next_word(after) else {
                return Ok(None);
            };
            if !options.put(alloc, word, value)? {
                return Ok(None);
            }
            rest = more;
        } else {
            if !options.put_peer(word)? {
                return Ok(None);
            }
            rest = after;
        }
    }
    Ok(Some(options))
}

// The first word, and those behind it.
fn next_word(words: &[String]) -> Option<(&str, &[String])>
    ensures { MatchOption result (texts words.now ≡ []) (λ p. texts words.now ≡ p.0.now ∷ texts p.1.now) }
{
    match words {
        [] => None,
        [first, rest @ ..] => Some((first.as_str(), rest)),
    }
}

// Whether a word names an option.
fn is_option(word: &str) -> bool
    ensures { result ≡ is_option word.now }
{
    match word.as_bytes() {
        [first, second, _, ..] => *first == b'-' && *second == b'-',
        _ => false,
    }
}
