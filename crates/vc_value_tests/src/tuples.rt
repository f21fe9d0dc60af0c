//! Tests of `vc_tuple`: label sets of several tapes.

use vc_label::{Alphabet, LabelFault, LabelSet, TapeKind, TapeSet, Word, WordBuf};
use vc_tuple::Tuple;

fn set(kind: TapeKind) -> TapeSet {
    TapeSet {
        kind,
        alphabet: Alphabet::new().with(b'a').with(b'b'),
    }
}

#[test]
fn tuples_are_cut_and_joined(rt: HostRuntime) -> Result<(), LabelFault> {
    let pair = Tuple::two(set(TapeKind::Words), set(TapeKind::Nullable));
    let label = pair.label(rt.alloc(), Word::two(b"ab", b""))?;
    assert_eq!(rt; Tuple::part(&label, 0), b"ab".as_slice());
    assert_eq!(rt; Tuple::part(&label, 1), b"".as_slice());
    let rest = Tuple::cut(&label, Word::two(b"aba", b"b")).expect(&rt, "it begins so");
    assert_eq!(rt; rest.tape(0), b"a".as_slice());
    assert_eq!(rt; rest.tape(1), b"b".as_slice());
    assert!(rt; Tuple::cut(&label, Word::two(b"ba", b"b")).is_none());

    let copy = Tuple::copy(rt.alloc(), &label).map_err(LabelFault::Memory)?;
    let mut onto = WordBuf::new(rt.alloc(), 2);
    Tuple::join(&copy, &mut onto).map_err(LabelFault::Memory)?;
    assert_eq!(rt; onto.word().tape(0), b"ab".as_slice());
    assert!(rt; onto.word().tape(1).is_empty());
    Ok(())
}

#[test]
fn tuples_are_ordered_tape_by_tape(rt: HostRuntime) -> Result<(), LabelFault> {
    let triple = Tuple::three(
        set(TapeKind::Words),
        set(TapeKind::Words),
        set(TapeKind::Nullable),
    );
    let first = triple.label(rt.alloc(), Word::three(b"a", b"b", b""))?;
    let second = triple.label(rt.alloc(), Word::three(b"a", b"b", b"a"))?;
    let third = triple.label(rt.alloc(), Word::three(b"aa", b"", b""))?;
    assert!(rt; first < second && second < third);
    let letters = set(TapeKind::Letters);
    let four = Tuple::four(letters, letters, letters, letters);
    assert!(rt;
        four.label(rt.alloc(), Word::four(b"a", b"a", b"b", b"c"))
            .is_err()
    );
    assert!(rt; !Tuple::is_empty(&first));
    Ok(())
}
