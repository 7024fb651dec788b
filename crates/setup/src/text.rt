// The lines of a text.
ghost use Rattle.std.specs.Prelude.{◌≡◌, [], ◌∷◌, MatchOption, IfSome};
ghost use Rattle.setup.specs.Text.{line_length, lines_of, FirstLine};

// How many bytes the first line has, with its LF.
fn line_length(text: &[u8]) -> usize
    ensures { result ≡ line_length text.now }
{
    for (at, byte) in text.iter().enumerate() {
        if *byte == b'\n' {
            return at + 1;
        }
    }
    text.len()
}

// The first line of a text, with its LF if it has one, and what lies behind it. An empty text has no line.
pub fn split_line(text: &[u8]) -> Option<(&[u8], &[u8])>
    ensures line { MatchOption result (text.now ≡ []) (λ parts. lines_of text.now ≡ parts.0.now ∷ lines_of parts.1.now) }
    ensures first { IfSome result (λ parts. FirstLine text.now parts.0.now parts.1.now) }
{
    if text.is_empty() {
        return None;
    }
    Some(text.split_at(line_length(text)))
}
