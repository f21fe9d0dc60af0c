//! Tests of `vc_exprio`: words from their texts, and back.

use std::alloc::{AllocError, Global};
use std::test::Fail;
use vc_atoms::Words;
use vc_exprio::{WordFault, read_word, write_word};
use vc_label::{Alphabet, LabelSet};

/// The text that is written of the word that a text spells, or what the reader answers in its place.
fn written<L: LabelSet>(alloc: Global, labels: &L, text: &str) -> Result<String, AllocError> {
    let mut into = String::new(alloc);
    match read_word(alloc, labels, text) {
        Ok(word) => write_word(word.word(), &mut into)?,
        Err(WordFault::NotAWord) => into.push_str("no word")?,
        Err(WordFault::NotALabel) => into.push_str("no label")?,
        Err(WordFault::Memory(fault)) => return Err(fault),
    }
    Ok(into)
}

#[test]
fn words_are_read_and_written(rt: HostRuntime) -> Result<(), Fail> {
    let alphabet = Alphabet::new().with_range(b'a', b'c').with(b'+');
    let words = Words::new(alphabet);
    for (text, again) in [
        ("ab", "ab"),
        (" 'ab'\t", "ab"),
        ("\\e", "\\e"),
        ("''", "\\e"),
        ("a\\+", "a\\+"),
        ("ad", "no label"),
        ("a|b", "no label"),
        ("a b", "no word"),
        ("'a", "no word"),
        ("a|", "no word"),
        ("", "no word"),
        ("a # b", "no word"),
    ] {
        assert_eq!(rt; written(rt.alloc(), &words, text)?.as_str(), again);
    }
    Ok(())
}
