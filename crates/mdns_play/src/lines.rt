// The lines of a text.
ghost use Rattle.std.specs.Prelude.{◌≡◌, [], MatchOption};
ghost use Rattle.mdns_play.specs.Scripts.{lines_of, without_return};
ghost use Rattle.mdns_play.specs.Lines.{TakesLine};

use number_text::cut_at;

/// The first line of a text, without its line feed and one carriage return before that, and what follows. `None`
/// exactly where the text is empty.
pub fn next_line(text: &[u8]) -> Option<(&[u8], &[u8])>
    ensures { MatchOption result (text.now ≡ []) (λ parts. TakesLine text.now parts.0.now parts.1.now) }
{
    match cut_at(text, b'\n') {
        Some((line, after)) => Some((without_return(line), after)),
        None if text.is_empty() => None,
        None => Some((text, &text[text.len()..])),
    }
}

fn without_return(line: &[u8]) -> &[u8]
    ensures { result.now ≡ without_return line.now }
{
    if !line.is_empty() && line[line.len() - 1] == b'\r' {
        &line[..line.len() - 1]
    } else {
        line
    }
}
