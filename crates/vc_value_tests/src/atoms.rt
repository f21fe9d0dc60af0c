//! Tests of `vc_atoms`: label sets of one tape.

use vc_atoms::{Letters, Nullable, Words};
use vc_label::{Alphabet, LabelFault, LabelSet, Word, WordBuf};

fn a_to_c() -> Alphabet {
    Alphabet::new().with(b'a').with(b'b').with(b'c')
}

#[test]
fn words_are_cut_and_joined(rt: HostRuntime) -> Result<(), LabelFault> {
    let set = Words::new(a_to_c());
    let ab = set.label(rt.alloc(), Word::one(b"ab"))?;
    let ba = set.label(rt.alloc(), Word::one(b"ba"))?;
    let abc = Word::one(b"abc");
    let rest = Words::cut(&ab, abc).expect(&rt, "ab is a prefix");
    assert_eq!(rt; rest.tape(0), b"c".as_slice());
    assert!(rt; Words::cut(&ba, abc).is_none());
    assert!(rt; ab < ba);

    let copy = Words::copy(rt.alloc(), &ab).map_err(LabelFault::Memory)?;
    assert!(rt; copy == ab);
    assert_eq!(rt; Words::part(&copy, 0), b"ab".as_slice());
    let mut onto = WordBuf::new(rt.alloc(), 1);
    Words::join(&copy, &mut onto).map_err(LabelFault::Memory)?;
    assert_eq!(rt; onto.word().tape(0), b"ab".as_slice());
    Ok(())
}

#[test]
fn words_have_labels_in_their_sets(rt: HostRuntime) {
    let (letters, nullable, words) = (
        Letters::new(a_to_c()),
        Nullable::new(a_to_c()),
        Words::new(a_to_c()),
    );
    for (word, in_letters, in_nullable, in_words) in [
        (b"".as_slice(), false, true, true),
        (b"b".as_slice(), true, true, true),
        (b"ab".as_slice(), false, false, true),
        (b"d".as_slice(), false, false, false),
        (b"ad".as_slice(), false, false, false),
    ] {
        let word = Word::one(word);
        assert_eq!(rt; letters.label(rt.alloc(), word).is_ok(), in_letters);
        assert_eq!(rt; nullable.label(rt.alloc(), word).is_ok(), in_nullable);
        assert_eq!(rt; words.label(rt.alloc(), word).is_ok(), in_words);
    }
    assert!(rt; letters.label(rt.alloc(), Word::two(b"a", b"a")).is_err());
}

#[test]
fn the_empty_label_comes_first(rt: HostRuntime) -> Result<(), LabelFault> {
    let set = Nullable::new(a_to_c());
    let empty = set.label(rt.alloc(), Word::one(b""))?;
    let a = set.label(rt.alloc(), Word::one(b"a"))?;
    assert!(rt; empty < a);
    assert!(rt; Nullable::is_empty(&empty));
    assert!(rt; !Nullable::is_empty(&a));
    let rest = Nullable::cut(&empty, Word::one(b"a")).expect(&rt, "nothing is a prefix");
    assert_eq!(rt; rest.tape(0), b"a".as_slice());
    Ok(())
}
