//! Tests of `vc_series`: coefficients by the definition, of expressions that are read from texts.

use std::alloc::Global;
use std::test::Fail;
use vc_atoms::Letters;
use vc_basic::Z;
use vc_expr::{Exprs, stores_are_valid};
use vc_exprio::{read_expr, read_word};
use vc_label::{Alphabet, LabelSet};
use vc_ring::{Overflow, Semiring};
use vc_series::{SlowFault, coefficient};
use vc_terms::tapes_of_terms;

/// The coefficient of the expression of a text at the word of another one.
fn coefficient_at<L: LabelSet, S: Semiring>(
    alloc: Global,
    labels: &L,
    text: &str,
    word: &str,
) -> Result<Result<S::Value, SlowFault<S::Value>>, Fail> {
    let mut store = Exprs::<L, S>::new(alloc);
    let e = match read_expr(alloc, &mut store, labels, text) {
        Ok(e) => e,
        Err(_) => return Err(Fail::new("no expression")),
    };
    let at = match read_word(alloc, labels, word) {
        Ok(at) => at,
        Err(_) => return Err(Fail::new("no word")),
    };
    let tree = store.tree(e)?;
    stores_are_valid(&store);
    tapes_of_terms::<S::Value>();
    Ok(coefficient::<L, S>(alloc, &tree, at.word()))
}

#[test]
fn coefficients_are_those_of_the_definition(rt: HostRuntime) -> Result<(), Fail> {
    let letters = Letters::new(Alphabet::new().with(b'a').with(b'b'));
    let large = 1 << 126;
    let product = Overflow::Mul {
        left: large,
        right: large,
    };
    for (text, word, expected) in [
        ("\\z", "\\e", Ok(0)),
        ("\\e", "\\e", Ok(1)),
        ("(a+b)<2>+a", "a", Ok(3)),
        ("a*a*", "aa", Ok(3)),
        ("(<2>a)*&(<2>a)*", "aa", Ok(16)),
        ("aa:b", "aab", Ok(1)),
        (
            "(<85070591730234615865843651857942052864>a)*",
            "aa",
            Err(SlowFault::Overflow(product)),
        ),
    ] {
        assert_eq!(rt;
            coefficient_at::<Letters, Z>(rt.alloc(), &letters, text, word)?,
            expected
        );
    }
    Ok(())
}
