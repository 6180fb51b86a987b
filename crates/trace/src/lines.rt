// Where a line ends.
ghost use Rattle.std.specs.Prelude.{◌≡◌, ◌==◌, position};
ghost use Rattle.trace.specs.Lines.{Cut, first_line, after_line};

fn first_of(text: &[u8], byte: u8) -> Option<usize>
    ensures { result ≡ position (λ b. b == byte) text.now }
{
    text.iter().position(|b| *b == byte)
}

// What stands before a byte, where it stands first, and what stands after it.
pub(crate) fn split_once(text: &[u8], byte: u8) -> Option<(&[u8], &[u8])>
    ensures { Cut byte text.now result }
{
    let at = first_of(text, byte)?;
    Some((&text[..at], &text[at + 1..]))
}

// The first line of a text, and what follows its end.
pub fn split_line(text: &[u8]) -> (&[u8], &[u8])
    ensures gives_the_first_line { result.0.now ≡ first_line text.now }
    ensures gives_what_follows { result.1.now ≡ after_line text.now }
{
    split_once(text, b'\n').unwrap_or((text, &[]))
}
