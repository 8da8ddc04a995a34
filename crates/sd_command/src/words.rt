// The words of the command line.
ghost use Rattle.std.specs.Prelude.{◌≡◌, ◌<◌, ◌∷◌, [], Some, None, IfSome, MatchOption};
ghost use Rattle.sd_command.specs.Commands.{texts, first_word, socket_words, count_word, given_count, count_words};

use number_text::read_decimal_u32;

/// The socket where none is given: in the folder where the program runs.
const SOCKET: &str = "mdnsd.sock";

/// The most lines that can be asked for.
const MOST_LINES: u32 = 1_000_000;

/// The first word, and those behind it.
pub fn next_word(words: &[String]) -> Option<(&str, &[String])>
    ensures { MatchOption result (texts words.now ≡ []) (λ p. texts words.now ≡ p.0.now ∷ texts p.1.now) }
{
    match words {
        [] => None,
        [first, rest @ ..] => Some((first.as_str(), rest)),
    }
}

/// The path of the socket, and the words behind: `-socket PATH`, where it is given.
#[tactic(auto, unfolding(crate::specs::Commands::socket_words))]
pub fn socket(words: &[String]) -> Option<(&str, &[String])>
    ensures { MatchOption result (socket_words (texts words.now) ≡ None)
        (λ p. socket_words (texts words.now) ≡ Some (p.0.now, texts p.1.now)) }
{
    match next_word(words) {
        Some((word, rest)) if word == "-socket" => next_word(rest),
        _ => Some((SOCKET, words)),
    }
}

/// The count of lines, and the words behind: `-count N`, where it is given.
#[tactic(auto, unfolding(crate::specs::Commands::count_words))]
pub fn count(words: &[String]) -> Option<(Option<u32>, &[String])>
    ensures value { MatchOption result (count_words (texts words.now) ≡ None)
        (λ p. count_words (texts words.now) ≡ Some (p.0, texts p.1.now)) }
    ensures some { IfSome result (λ p. IfSome p.0 (λ most. 0 < most)) }
{
    match next_word(words) {
        Some((word, rest)) if word == "-count" => given_count(rest),
        _ => Some((None, words)),
    }
}

// N, and the words behind it.
fn given_count(words: &[String]) -> Option<(Option<u32>, &[String])>
    ensures value { MatchOption result (given_count (texts words.now) ≡ None)
        (λ p. given_count (texts words.now) ≡ Some (p.0, texts p.1.now)) }
    ensures some { IfSome result (λ p. IfSome p.0 (λ most. 0 < most)) }
{
    let (word, rest) = next_word(words)?;
    let count = count_word(word)?;
    Some((Some(count), rest))
}

// 1 to 1,000,000.
fn count_word(word: &str) -> Option<u32>
    ensures value { result ≡ count_word word.now }
    ensures some { IfSome result (λ most. 0 < most) }
{
    let count = read_decimal_u32(word.as_bytes())?;
    if count == 0 || count > MOST_LINES {
        return None;
    }
    Some(count)
}
