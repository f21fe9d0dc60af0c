ghost use Rattle.std.specs.Prelude.{◌≡◌};
ghost use Rattle.vc_text.specs.Blanks.{is_blank, after_blanks};

/// Whether the byte is a space or a tab.
pub fn is_blank(byte: u8) -> bool
    ensures { result ≡ is_blank byte }
{
    byte == b' ' || byte == b'\t'
}

/// The text from its first byte on that is no blank.
pub fn after_blanks(text: &[u8]) -> &[u8]
    ensures { result.now ≡ after_blanks text.now }
{
    let mut rest = text;
    while let [b' ' | b'\t', next @ ..] = rest {
        rest = next;
    }
    rest
}
