//! The coefficient of an expression at a word, by its definition.
ghost use Rattle.std.specs.Prelude.{◌≡◌, ℕ, ◌+◌, ◌++◌, ◌∷◌, [], List, map, length, slice_index_or, if◌then◌else◌, Result, Ok, Err, IsTrue, IfOk, OnOk};
ghost use Rattle.vc_label.specs.Borrowed.{word_of};
ghost use Rattle.vc_model.specs.Words.{Word, same_word, is_empty};
ghost use Rattle.vc_ring.specs.Steps.{added};
ghost use Rattle.vc_ring.specs.declared.faults.Overflow.{Overflow};
ghost use Rattle.vc_ring.specs.declared.faults.Overflow.TheVariants.{Mul};
ghost use Rattle.vc_series.specs.Answers.{coefficient_answer, IsSlowAnswer, star_answer, product_onto};
ghost use Rattle.vc_series.specs.Conditions.{HasWeightsIn, HasCoefficient, HaveCoefficients};
ghost use Rattle.vc_series.specs.Trees.{term_of};
ghost use Rattle.vc_terms.specs.Terms.{Sum, Product, Star, Shuffle, terms_of, IsOnTapes, IsValid};

use crate::fault::SlowFault;
use crate::tree::Tree;
use crate::word_pairs::{cuts, tape_pairs};
use std::alloc::{AllocError, Global};
use vc_label::{LabelSet, Word, WordBuf};
use vc_ring::{Overflow, Semiring, StarFault};

/// The coefficient of an expression at a word, by its definition and with no regard to time: a
/// product goes over all cuts of the word, and a shuffle over all position sets. It stands for
/// tests alone.
///
/// Sums are added from left to right, over the cuts of a word with the shorter first piece first.
pub fn coefficient<L: LabelSet, S: Semiring>(
    alloc: Global,
    tree: &Tree<L, S>,
    word: Word<'_>,
) -> Result<S::Value, SlowFault<S::Value>>
    requires tapes { IsOnTapes (length (word_of word)) (term_of L.parts tree.now) }
    requires valid { IsValid S.set (length (word_of word)) (term_of L.parts tree.now) }
    requires weights { HasWeightsIn S.set (term_of L.parts tree.now) }
    ensures answer { IsSlowAnswer
        (coefficient_answer S.set (term_of L.parts tree.now) (word_of word.entry)) result }
    ensures in_range { IfOk result (λ v. IsTrue (S.set.in_range v)) }
{
    value::<L, S>(alloc, tree, word)
}

#[cycle(values)]
fn value<L: LabelSet, S: Semiring>(
    alloc: Global,
    tree: &Tree<L, S>,
    word: Word<'_>,
) -> Result<S::Value, SlowFault<S::Value>>
    requires { HasCoefficient S.set (length (word_of word)) (term_of L.parts tree.now) }
    ensures answer { IsSlowAnswer
        (coefficient_answer S.set (term_of L.parts tree.now) (word_of word.entry)) result }
    ensures in_range { IfOk result (λ v. IsTrue (S.set.in_range v)) }
{
    match tree {
        Tree::Zero => return Ok(S::zero()),
        Tree::One => return Ok(one_where::<S>(word.is_empty())),
        Tree::Atom(label) => return Ok(one_where::<S>(has_parts::<L>(label, word))),
        Tree::Sum(parts) => return sum_value::<L, S>(alloc, parts, word),
        Tree::Product(parts) => return product_value::<L, S>(alloc, parts, word),
        Tree::Star(part) => return star_value::<L, S>(alloc, part, word),
        Tree::Weight(k, part) => {
            let of_part = value::<L, S>(alloc, part, word)?;
            return Ok(S::mul(*k, of_part)?);
        }
        Tree::Both(a, b) => {
            let first = value::<L, S>(alloc, a, word)?;
            let second = value::<L, S>(alloc, b, word)?;
            return Ok(S::mul(first, second)?);
        }
        Tree::Shuffle(a, b) => return shuffle_value::<L, S>(alloc, a, b, word),
    }
}

#[cycle(values)]
fn sum_value<L: LabelSet, S: Semiring>(
    alloc: Global,
    parts: &[Tree<L, S>],
    word: Word<'_>,
) -> Result<S::Value, SlowFault<S::Value>>
    requires { HaveCoefficients S.set (length (word_of word))
        (terms_of (map (term_of L.parts) parts.now)) }
    ensures answer { IsSlowAnswer (coefficient_answer S.set
        (Sum (terms_of (map (term_of L.parts) parts.now))) (word_of word.entry)) result }
    ensures in_range { IfOk result (λ v. IsTrue (S.set.in_range v)) }
{
    let mut total = S::zero();
    for part in parts {
        let of_part = value::<L, S>(alloc, part, word)?;
        total = S::add(total, of_part)?;
    }
    Ok(total)
}

#[cycle(values)]
fn product_value<L: LabelSet, S: Semiring>(
    alloc: Global,
    parts: &[Tree<L, S>],
    word: Word<'_>,
) -> Result<S::Value, SlowFault<S::Value>>
    requires { HaveCoefficients S.set (length (word_of word))
        (terms_of (map (term_of L.parts) parts.now)) }
    ensures answer { IsSlowAnswer (coefficient_answer S.set
        (Product (terms_of (map (term_of L.parts) parts.now))) (word_of word.entry)) result }
    ensures in_range { IfOk result (λ v. IsTrue (S.set.in_range v)) }
{
    let Some((first, rest)) = parts.split_first() else {
        return Ok(one_where::<S>(word.is_empty()));
    };
    let mut total = S::zero();
    for (u, v) in &cuts(alloc, word)? {
        let of_first = value::<L, S>(alloc, first, u.word())?;
        let of_rest = product_value::<L, S>(alloc, rest, v.word())?;
        total = add_product::<S>(total, of_first, of_rest)?;
    }
    Ok(total)
}

#[cycle(values)]
fn star_value<L: LabelSet, S: Semiring>(
    alloc: Global,
    part: &Tree<L, S>,
    word: Word<'_>,
) -> Result<S::Value, SlowFault<S::Value>>
    requires { HasCoefficient S.set (length (word_of word)) (Star (term_of L.parts part.now)) }
    ensures answer { IsSlowAnswer (coefficient_answer S.set
        (Star (term_of L.parts part.now)) (word_of word.entry)) result }
    ensures in_range { IfOk result (λ v. IsTrue (S.set.in_range v)) }
{
    let empty = WordBuf::new(alloc, word.tapes());
    let constant = value::<L, S>(alloc, part, empty.word())?;
    let star = valid_star::<S>(constant)?;
    if word.is_empty() {
        return Ok(star);
    }
    let mut total = S::zero();
    for (u, v) in &cuts(alloc, word)? {
        if !u.word().is_empty() {
            let of_part = value::<L, S>(alloc, part, u.word())?;
            let of_star = star_value::<L, S>(alloc, part, v.word())?;
            total = add_product::<S>(total, of_part, of_star)?;
        }
    }
    Ok(S::mul(star, total)?)
}

#[cycle(values)]
fn shuffle_value<L: LabelSet, S: Semiring>(
    alloc: Global,
    a: &Tree<L, S>,
    b: &Tree<L, S>,
    word: Word<'_>,
) -> Result<S::Value, SlowFault<S::Value>>
    requires { HasCoefficient S.set (length (word_of word))
        (Shuffle (term_of L.parts a.now) (term_of L.parts b.now)) }
    ensures answer { IsSlowAnswer (coefficient_answer S.set
        (Shuffle (term_of L.parts a.now) (term_of L.parts b.now)) (word_of word.entry)) result }
    ensures in_range { IfOk result (λ v. IsTrue (S.set.in_range v)) }
{
    let mut total = S::zero();
    for (u, v) in &tape_pairs(alloc, word.tape(0))? {
        let first = value::<L, S>(alloc, a, u.word())?;
        let second = value::<L, S>(alloc, b, v.word())?;
        total = add_product::<S>(total, first, second)?;
    }
    Ok(total)
}

/// One where the test holds, and else zero.
fn one_where<S: Semiring>(holds: bool) -> S::Value
    ensures value { result ≡ (if holds then S.set.one else S.set.zero) }
    ensures in_range { IsTrue (S.set.in_range result) }
{
    if holds { S::one() } else { S::zero() }
}

/// Whether the word is that of the label.
fn has_parts<L: LabelSet>(label: &L::Label, word: Word<'_>) -> bool
    requires { length (L.parts label.now) ≡ length (word_of word) }
    ensures { result ≡ same_word (L.parts label.now) (word_of word.entry) }
{
    match L::cut(label, word) {
        Some(rest) => rest.is_empty(),
        None => false,
    }
}

/// The star of a constant term that has one.
fn valid_star<S: Semiring>(of: S::Value) -> Result<S::Value, Overflow<S::Value>>
    requires in_range { IsTrue (S.set.in_range of) }
    requires has_star { IsTrue (S.set.has_star of) }
    ensures value { result ≡ star_answer S.set of }
    ensures in_range { IfOk result (λ v. IsTrue (S.set.in_range v)) }
{
    match S::star(of) {
        Ok(star) => return Ok(star),
        Err(StarFault::NoStar(_)) => unreachable!(),
        Err(StarFault::Overflow(step)) => return Err(step),
    }
}

/// The product of the last two, added to the first.
fn add_product<S: Semiring>(
    total: S::Value,
    left: S::Value,
    right: S::Value,
) -> Result<S::Value, Overflow<S::Value>>
    requires total { IsTrue (S.set.in_range total) }
    requires left { IsTrue (S.set.in_range left) }
    requires right { IsTrue (S.set.in_range right) }
    ensures value { result ≡ product_onto S.set total left right }
    ensures in_range { IfOk result (λ v. IsTrue (S.set.in_range v)) }
{
    let product = S::mul(left, right)?;
    S::add(total, product)
}
