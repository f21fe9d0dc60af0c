ghost use Rattle.std.specs.Prelude.{◌≡◌, ◌<◌, ◌≤◌, ◌+◌, ◌∷◌, not, length};
ghost use Rattle.std.specs.List.{prefix_len};
ghost use Rattle.vc_lines.specs.Lines.{is_line_feed, lines_of, without_return, more_lines, without_end};

/// The line without the carriage return at its end.
fn without_return(line: &[u8]) -> &[u8]
    ensures { result.now ≡ without_return line.now }
{
    let length = line.len();
    if length > 0 && line[length - 1] == b'\r' {
        &line[..length - 1]
    } else {
        line
    }
}

/// The text, or nothing where no line begins in it.
fn without_end(text: &[u8]) -> &[u8]
    ensures value { result.now ≡ without_end text.now }
    ensures shorter { length result.now ≤ length text.now }
{
    match text {
        [b'\r'] => &[],
        _ => text,
    }
}

/// How many bytes the first line of a text has.
fn line_length(text: &[u8]) -> usize
    ensures value { result ≡ prefix_len (λ x. not (is_line_feed x)) text.now }
    ensures within { result ≤ length text.now }
{
    text.iter().take_while(|byte| **byte != b'\n').count()
}

/// The first line of a text, and the text of the lines after it, which is empty where there is none.
pub fn cut_line(text: &[u8]) -> (&[u8], &[u8])
    ensures lines { lines_of text.now ≡ result.0.now ∷ more_lines result.1.now }
    ensures shorter { 0 < length text.now → length result.1.now < length text.now }
{
    let end = line_length(text);
    if end < text.len() {
        (without_return(&text[..end]), without_end(&text[end + 1..]))
    } else {
        (without_return(text), &[])
    }
}
