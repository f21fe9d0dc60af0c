//! Tests of `vc_text`: letters, blanks, classes and texts that grow.

use std::alloc::AllocError;
use vc_label::Alphabet;
use vc_text::{after_blanks, class_letters, letter_at, push_letter, push_number, push_text};

#[test]
fn letters_are_read_and_written(rt: HostRuntime) -> Result<(), AllocError> {
    for (text, letter) in [
        (b"a+".as_slice(), Some(b'a')),
        (b"_", Some(b'_')),
        (b"\\+b", Some(b'+')),
        (b"\\\\", Some(b'\\')),
        (b"\\a", None),
        (b"+", None),
        (b"\\", None),
        (b" a", None),
    ] {
        let found = letter_at(text, 0);
        assert_eq!(rt; found.map(|found| found.letter), letter);
        if let Some(found) = found {
            let mut written = String::new(rt.alloc());
            push_letter(found.letter, &mut written)?;
            assert_eq!(rt; written.as_bytes(), &text[..found.after]);
        }
    }
    Ok(())
}

#[test]
fn texts_grow(rt: HostRuntime) -> Result<(), AllocError> {
    let mut text = String::new(rt.alloc());
    push_text("n = ", &mut text)?;
    push_number(120, &mut text)?;
    assert_eq!(rt; text.as_str(), "n = 120");
    Ok(())
}

#[test]
fn blanks_are_left_out(rt: HostRuntime) {
    assert_eq!(rt; after_blanks(b" \t n "), b"n ".as_slice());
}

#[test]
fn classes_have_their_letters(rt: HostRuntime) {
    let alphabet = Alphabet::new().with_range(b'a', b'd').with(b'^');
    for (body, letters) in [
        (b"ba".as_slice(), Some(b"ab".as_slice())),
        (b"^b", Some(b"^acd")),
        (b"c-z\\^", Some(b"^cd")),
        (b"x-z", Some(b"")),
        (b"^", Some(b"^abcd")),
        (b"x", None),
        (b"^x", None),
    ] {
        let found = class_letters(alphabet, body);
        assert_eq!(rt; found.is_some(), letters.is_some());
        let mut found = found.unwrap_or(Alphabet::new()).letters();
        for letter in letters.unwrap_or(b"") {
            assert_eq!(rt; found.next(), Some(*letter));
        }
        assert!(rt; found.next().is_none());
    }
}
