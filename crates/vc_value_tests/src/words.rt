//! Tests of `vc_label`: alphabets and words.

use std::alloc::AllocError;
use vc_label::{Alphabet, Word, WordBuf};

#[test]
fn alphabets_have_their_letters(rt: HostRuntime) {
    let ab = Alphabet::new().with(b'a').with(b'b');
    let all = ab.union(Alphabet::new().with(b'~'));
    for (letter, in_ab, in_all) in [
        (b'a', true, true),
        (b'b', true, true),
        (b'c', false, false),
        (b'~', false, true),
        (b' ', false, false),
        (0xff, false, false),
    ] {
        assert_eq!(rt; ab.has(letter), in_ab, "at {letter}");
        assert_eq!(rt; all.has(letter), in_all, "at {letter}");
    }
    assert!(rt; ab == Alphabet::new().with(b'b').with(b'a'));
}

#[test]
fn letters_are_listed_in_order(rt: HostRuntime) {
    let digits = Alphabet::new().with_range(b'0', b'3');
    let odd = Alphabet::new().with(b'3').with(b'1');
    for (alphabet, letters) in [
        (digits, b"0123".as_slice()),
        (digits.without(odd), b"02"),
        (odd.intersection(digits), b"13"),
        (odd.with_range(b'b', b'a'), b"13"),
        (Alphabet::new().with_range(b'}', 0xff), b"}~"),
    ] {
        let mut found = alphabet.letters();
        for letter in letters {
            assert_eq!(rt; found.next(), Some(*letter));
        }
        assert!(rt; found.next().is_none());
    }
}

#[test]
fn words_grow(rt: HostRuntime) -> Result<(), AllocError> {
    let mut grown = WordBuf::new(rt.alloc(), 2);
    assert!(rt; grown.word().is_empty());
    grown.push(1, b'a')?;
    grown.append(Word::two(b"xy", b"b"))?;
    let word = grown.word();
    assert_eq!(rt; word.tapes(), 2);
    assert_eq!(rt; word.tape(0), b"xy".as_slice());
    assert_eq!(rt; word.tape(1), b"ab".as_slice());
    assert!(rt; !word.is_empty());
    Ok(())
}
