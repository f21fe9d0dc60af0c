//! Tests of `vc_eval`: coefficients at words.

ghost use Rattle.std.specs.Prelude.{◌≡◌, ◌<◌, IfOk, IsTrue, OnOk, length};

use std::alloc::Global;
use std::test::Fail;
use vc_atoms::{Letters, Words};
use vc_aut::{Automaton, Builder, Proper};
use vc_basic::{B, Z};
use vc_eval::{Evaluator, eval_tuple};
use vc_label::{Alphabet, LabelSet, TapeKind, TapeSet, Word};
use vc_ring::{Limit, MakeFault, Measure, Overflow, Semiring};
use vc_tuple::Tuple;

/// Adds a transition.
fn connect<L: LabelSet, S: Semiring>(
    alloc: Global,
    builder: &mut Builder<L, S>,
    labels: L,
    from: u32,
    word: Word<'_>,
    weight: S::Value,
    to: u32,
) -> Result<(), Fail>
    requires sets { builder.old.sets ≡ L.sets labels }
    requires from { from < builder.old.automaton.states }
    requires weight { IsTrue (S.set.in_range weight) }
    requires to { to < builder.old.automaton.states }
    ensures sets { OnOk result (builder.new.sets ≡ builder.old.sets) }
    ensures states { OnOk result (builder.new.automaton.states ≡ builder.old.automaton.states) }
{
    let label = labels.label(alloc, word)?;
    match builder.add_transition(from, label, to, weight) {
        Ok(()) => Ok(()),
        Err(_) => Err(Fail::new("a transition is refused")),
    }
}

/// The automaton, whose labels are not empty.
fn proper<L: LabelSet, S: Semiring>(automaton: Automaton<L, S>) -> Result<Proper<L, S>, Fail>
    ensures { IfOk result (λ p. p.sets ≡ automaton.sets) }
{
    match automaton.into_proper() {
        Ok(proper) => return Ok(proper),
        Err(_) => return Err(Fail::new("a label is empty")),
    }
}

/// The automaton of the words over a and b in which ab stands.
fn with_ab(alloc: Global) -> Result<Proper<Letters, B>, Fail>
    ensures { IfOk result (λ a. length a.sets ≡ 1) }
{
    let labels = Letters::new(Alphabet::new().with(b'a').with(b'b'));
    let mut builder = Builder::<Letters, B>::new(alloc, labels, 3);
    let start = builder.add_state()?;
    let middle = builder.add_state()?;
    let end = builder.add_state()?;
    builder.add_initial(start, true)?;
    builder.add_final(end, true)?;
    connect(
        alloc,
        &mut builder,
        labels,
        start,
        Word::one(b"a"),
        true,
        start,
    )?;
    connect(
        alloc,
        &mut builder,
        labels,
        start,
        Word::one(b"b"),
        true,
        start,
    )?;
    connect(
        alloc,
        &mut builder,
        labels,
        start,
        Word::one(b"a"),
        true,
        middle,
    )?;
    connect(
        alloc,
        &mut builder,
        labels,
        middle,
        Word::one(b"b"),
        true,
        end,
    )?;
    connect(alloc, &mut builder, labels, end, Word::one(b"a"), true, end)?;
    connect(alloc, &mut builder, labels, end, Word::one(b"b"), true, end)?;
    proper(builder.finish()?)
}

/// The automaton over a and b whose coefficient is a word's value as a binary number with b for one.
fn binary_value(alloc: Global) -> Result<Proper<Letters, Z>, Fail>
    ensures { IfOk result (λ a. length a.sets ≡ 1) }
{
    let labels = Letters::new(Alphabet::new().with(b'a').with(b'b'));
    let mut builder = Builder::<Letters, Z>::new(alloc, labels, 2);
    let start = builder.add_state()?;
    let end = builder.add_state()?;
    builder.add_initial(start, 1)?;
    builder.add_final(end, 1)?;
    connect(
        alloc,
        &mut builder,
        labels,
        start,
        Word::one(b"a"),
        1,
        start,
    )?;
    connect(
        alloc,
        &mut builder,
        labels,
        start,
        Word::one(b"b"),
        1,
        start,
    )?;
    connect(alloc, &mut builder, labels, start, Word::one(b"b"), 1, end)?;
    connect(alloc, &mut builder, labels, end, Word::one(b"a"), 2, end)?;
    connect(alloc, &mut builder, labels, end, Word::one(b"b"), 2, end)?;
    proper(builder.finish()?)
}

#[test]
fn one_evaluator_serves_many_words(rt: HostRuntime) -> Result<(), Fail> {
    let automaton = with_ab(rt.alloc())?;
    let mut evaluator = Evaluator::new(rt.alloc(), &automaton)?;
    for (text, value) in [
        (b"aab".as_slice(), true),
        (b"ba", false),
        (b"ab", true),
        (b"", false),
        (b"b", false),
        (b"abba", true),
        (b"bbbaaa", false),
        (b"bbbaaab", true),
    ] {
        let coefficient = evaluator.eval(Word::one(text));
        assert_eq!(rt; coefficient, Ok(value));
    }
    Ok(())
}

#[test]
fn a_word_after_an_overflow_is_served(rt: HostRuntime) -> Result<(), Fail> {
    let automaton = binary_value(rt.alloc())?;
    let mut evaluator = Evaluator::new(rt.alloc(), &automaton)?;
    let greatest = i128::MAX;
    for (word, value) in [
        ([b'b'; 127].as_slice(), Ok(greatest)),
        (
            &[b'b'; 128],
            Err(Overflow::Mul {
                left: greatest,
                right: 2,
            }),
        ),
        (b"bab", Ok(5)),
    ] {
        assert_eq!(rt; evaluator.eval(Word::one(word)), value);
    }
    Ok(())
}

/// The automaton of one state that reads a and aa with weight 1, and bb with the greatest weight.
fn in_pieces(alloc: Global) -> Result<Proper<Words, Z>, Fail>
    ensures { IfOk result (λ a. length a.sets ≡ 1) }
{
    let labels = Words::new(Alphabet::new().with(b'a').with(b'b'));
    let mut builder = Builder::<Words, Z>::new(alloc, labels, 1);
    let only = builder.add_state()?;
    builder.add_initial(only, 1)?;
    builder.add_final(only, 1)?;
    connect(alloc, &mut builder, labels, only, Word::one(b"a"), 1, only)?;
    connect(alloc, &mut builder, labels, only, Word::one(b"aa"), 1, only)?;
    connect(
        alloc,
        &mut builder,
        labels,
        only,
        Word::one(b"bb"),
        i128::MAX,
        only,
    )?;
    proper(builder.finish()?)
}

#[test]
fn labels_of_several_letters_are_read_whole(rt: HostRuntime) -> Result<(), Fail> {
    let automaton = in_pieces(rt.alloc())?;
    let mut evaluator = Evaluator::new(rt.alloc(), &automaton)?;
    let greatest = i128::MAX;
    for (word, value) in [
        (b"aaaa".as_slice(), Ok(5)),
        (b"b", Ok(0)),
        (b"abb", Ok(greatest)),
        (
            b"abbbb",
            Err(Overflow::Mul {
                left: greatest,
                right: greatest,
            }),
        ),
        (b"aaa", Ok(3)),
        (b"bba", Ok(greatest)),
        (b"", Ok(1)),
    ] {
        assert_eq!(rt; evaluator.eval(Word::one(word)), value);
    }
    Ok(())
}

/// The automaton of one state that reads the letter a on one of four tapes.
fn shuffled(alloc: Global) -> Result<Proper<Tuple, Z>, Fail>
    ensures { IfOk result (λ a. length a.sets ≡ 4) }
{
    let set = TapeSet {
        kind: TapeKind::Nullable,
        alphabet: Alphabet::new().with(b'a'),
    };
    let labels = Tuple::four(set, set, set, set);
    let mut builder = Builder::<Tuple, Z>::new(alloc, labels, 1);
    let only = builder.add_state()?;
    builder.add_initial(only, 1)?;
    builder.add_final(only, 1)?;
    connect(
        alloc,
        &mut builder,
        labels,
        only,
        Word::four(b"a", b"", b"", b""),
        1,
        only,
    )?;
    connect(
        alloc,
        &mut builder,
        labels,
        only,
        Word::four(b"", b"a", b"", b""),
        1,
        only,
    )?;
    connect(
        alloc,
        &mut builder,
        labels,
        only,
        Word::four(b"", b"", b"a", b""),
        1,
        only,
    )?;
    connect(
        alloc,
        &mut builder,
        labels,
        only,
        Word::four(b"", b"", b"", b"a"),
        1,
        only,
    )?;
    proper(builder.finish()?)
}

#[test]
fn words_of_four_tapes_have_a_row_for_each_position(rt: HostRuntime) -> Result<(), Fail> {
    let automaton = shuffled(rt.alloc())?;
    let empty = Word::four(b"", b"", b"", b"");
    assert_eq!(rt; eval_tuple(rt.alloc(), &automaton, empty), Ok(1));
    let some = Word::four(b"aa", b"a", b"a", b"a");
    assert_eq!(rt; eval_tuple(rt.alloc(), &automaton, some), Ok(60));
    let other = Word::four(b"ab", b"a", b"a", b"a");
    assert_eq!(rt; eval_tuple(rt.alloc(), &automaton, other), Ok(0));
    let tape = [b'a'; 70];
    let long = Word::four(&tape, &tape, &tape, &tape);
    let past = MakeFault::Limit(Limit {
        what: Measure::Cells,
        most: 20_000_000,
    });
    assert_eq!(rt; eval_tuple(rt.alloc(), &automaton, long), Err(past));
    Ok(())
}
