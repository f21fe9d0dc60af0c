//! Tests of `vc_exprio`: expressions from their texts, and back.

use std::alloc::{AllocError, Global};
use std::test::Fail;
use vc_atoms::{Letters, Words};
use vc_basic::Z;
use vc_expr::Exprs;
use vc_exprio::{TextFault, read_expr, write_expr};
use vc_label::{Alphabet, LabelSet};
use vc_ring::{Limit, Measure, Overflow};

type Answer<T> = Result<T, TextFault<i128>>;

/// The canonical text of what a text is read as, or why it is refused.
fn read_again<L: LabelSet>(
    alloc: Global,
    store: &mut Exprs<L, Z>,
    labels: &L,
    text: &str,
) -> Result<Answer<String>, AllocError> {
    let e = match read_expr(alloc, store, labels, text) {
        Ok(e) => e,
        Err(TextFault::Memory(fault)) => return Err(fault),
        Err(fault) => return Ok(Err(fault)),
    };
    let mut into = String::new(alloc);
    write_expr(alloc, store, labels, e, &mut into)?;
    Ok(Ok(into))
}

fn is_same(answer: &Answer<String>, wanted: Answer<&str>) -> bool {
    match (answer, wanted) {
        (Ok(text), Ok(other)) => text.as_str() == other,
        (Err(fault), Err(other)) => *fault == other,
        _ => false,
    }
}

/// A text of so many `(`, then a, and as many `)`.
fn nested(alloc: Global, count: usize) -> Result<String, AllocError> {
    let mut text = String::new(alloc);
    for _ in 0..count {
        text.push('(')?;
    }
    text.push('a')?;
    for _ in 0..count {
        text.push(')')?;
    }
    Ok(text)
}

#[test]
fn expressions_are_read_and_written(rt: HostRuntime) -> Result<(), Fail> {
    let letters = Letters::new(Alphabet::new().with(b'a').with(b'b'));
    let mut store = Exprs::new(rt.alloc());
    for (text, again) in [
        ("a<2>b+\\z+(\\e)(a+(b))", "<2>(ab)+a+b"),
        ("(<2>a)*b", "(<2>a)*b"),
        ("<2>a*b", "<2>(a*b)"),
        ("[a-c]", "a+b"),
        ("[^a]'b'", "bb"),
        ("[c-d]+''", "\\e"),
        ("a&b:(a:b)", "a&b:(a:b)"),
    ] {
        let answer = read_again(rt.alloc(), &mut store, &letters, text)?;
        assert!(rt; is_same(&answer, Ok(again)));
    }
    Ok(())
}

#[test]
fn refusals_name_their_place(rt: HostRuntime) -> Result<(), Fail> {
    let letters = Letters::new(Alphabet::new().with(b'a').with(b'b'));
    let mut store = Exprs::new(rt.alloc());
    let one = match read_expr(rt.alloc(), &mut store, &letters, "\\e") {
        Ok(one) => one,
        Err(_) => return Err(Fail::new("no one")),
    };
    let large = 1 << 100;
    for (text, fault) in [
        ("a+", TextFault::NotAnExpression { at: 2 }),
        ("a+%)", TextFault::BadByte { at: 2 }),
        ("a%b", TextFault::BadByte { at: 1 }),
        ("ac*)", TextFault::NotAnExpression { at: 3 }),
        ("ac", TextFault::NotALabel { at: 1 }),
        ("[^c]", TextFault::NotALabel { at: 0 }),
        ("(\\e)a|b", TextFault::NotALabel { at: 4 }),
        (
            "\\e*<170141183460469231731687303715884105728>a",
            TextFault::Overflow(Overflow::Numeral { at: 3 }),
        ),
        (
            "a+\\e*",
            TextFault::InvalidStar {
                operand: one,
                constant: 1,
            },
        ),
        (
            "<1267650600228229401496703205376>\\e<1267650600228229401496703205376>",
            TextFault::Overflow(Overflow::Mul {
                left: large,
                right: large,
            }),
        ),
    ] {
        let answer = read_again(rt.alloc(), &mut store, &letters, text)?;
        assert!(rt; is_same(&answer, Err(fault)));
    }
    Ok(())
}

#[test]
fn operators_stand_over_single_letters(rt: HostRuntime) -> Result<(), Fail> {
    let words = Words::new(Alphabet::new().with(b'a').with(b'b'));
    let mut store = Exprs::new(rt.alloc());
    for (text, wanted) in [
        ("'ab'*a", Ok("'ab'*a")),
        ("\\e*&a:b", Err(TextFault::NotInContext { at: 3 })),
        ("a&c", Err(TextFault::NotALabel { at: 2 })),
    ] {
        let answer = read_again(rt.alloc(), &mut store, &words, text)?;
        assert!(rt; is_same(&answer, wanted));
    }
    Ok(())
}

#[test]
fn texts_have_their_limits(rt: HostRuntime) -> Result<(), Fail> {
    let letters = Letters::new(Alphabet::new().with(b'a'));
    let mut store = Exprs::new(rt.alloc());
    for (count, wanted) in [
        (999, Ok("a")),
        (
            1_000,
            Err(TextFault::Limit(Limit {
                what: Measure::Depth,
                most: 1_000,
            })),
        ),
        (
            32_768,
            Err(TextFault::Limit(Limit {
                what: Measure::Bytes,
                most: 65_536,
            })),
        ),
    ] {
        let text = nested(rt.alloc(), count)?;
        let answer = read_again(rt.alloc(), &mut store, &letters, text.as_str())?;
        assert!(rt; is_same(&answer, wanted));
    }
    Ok(())
}
