ghost use Rattle.std.specs.Prelude.{◌≡◌, ◌≤◌, length};
ghost use Rattle.std.specs.List.{prefix_len};
ghost use Rattle.vc_lex.specs.Fronts.{front};
ghost use Rattle.vc_lex.specs.Grammar.{is_weight_byte, is_name_byte};
ghost use Rattle.vc_lex.specs.Scans.{letter_width, item_width, name_width};
ghost use Rattle.vc_text.specs.Blanks.{is_blank};

use vc_text::{is_blank, letter_at};

// How many bytes the letter has that begins the text.
pub fn letter_width(text: &[u8]) -> Option<usize>
    ensures { result ≡ letter_width text.now }
{
    Some(letter_at(text, 0)?.after)
}

// How many bytes the letters at the front of the text have.
pub fn letters_in_front(text: &[u8]) -> usize
    ensures value { result ≡ front letter_width text.now }
    ensures within { result ≤ length text.now }
{
    let mut end = 0;
    while let Some(width) = letter_width(&text[end..]) {
        end += width;
    }
    end
}

// How many bytes the item of a class has that begins the text.
fn item_width(text: &[u8]) -> Option<usize>
    ensures { result ≡ item_width text.now }
{
    let first = letter_at(text, 0)?;
    let [b'-', ..] = &text[first.after..] else {
        return Some(first.after);
    };
    let last = letter_at(text, first.after + 1)?;
    if first.letter <= last.letter {
        Some(last.after)
    } else {
        None
    }
}

// How many bytes the items at the front of the text have.
pub fn items_in_front(text: &[u8]) -> usize
    ensures value { result ≡ front item_width text.now }
    ensures within { result ≤ length text.now }
{
    let mut end = 0;
    while let Some(width) = item_width(&text[end..]) {
        end += width;
    }
    end
}

fn is_name_byte(byte: u8) -> bool
    ensures { result ≡ is_name_byte byte }
{
    0x20 <= byte && byte <= 0x7e && byte != b'"' && byte != b'\\'
}

// How many bytes the part of a name has that begins the text.
fn name_width(text: &[u8]) -> Option<usize>
    ensures { result ≡ name_width text.now }
{
    match text {
        [x, ..] if is_name_byte(*x) => Some(1),
        [b'\\', b'"' | b'\\', ..] => Some(2),
        _ => None,
    }
}

// How many bytes the parts of a name at the front of the text have.
pub fn name_in_front(text: &[u8]) -> usize
    ensures value { result ≡ front name_width text.now }
    ensures within { result ≤ length text.now }
{
    let mut end = 0;
    while let Some(width) = name_width(&text[end..]) {
        end += width;
    }
    end
}

// How many bytes of a weight stand at the front of the text.
pub fn weight_in_front(text: &[u8]) -> usize
    ensures value { result ≡ prefix_len is_weight_byte text.now }
    ensures within { result ≤ length text.now }
{
    text.iter()
        .take_while(|x| **x != b'<' && **x != b'>' && **x != b'\n')
        .count()
}

// How many blanks stand at the front of the text.
pub fn blanks_in_front(text: &[u8]) -> usize
    ensures value { result ≡ prefix_len is_blank text.now }
    ensures within { result ≤ length text.now }
{
    text.iter().take_while(|x| is_blank(**x)).count()
}
