//! An expression is built by the steps of its tree.
ghost use Rattle.std.specs.Prelude.{◌≡◌, ◌≤◌, ◌∷◌, ◌++◌, [], Ok, Result, All, IsTrue, OnOk, length, map};
ghost use Rattle.std.specs.Option.{is_some};
ghost use Rattle.vc_expr.specs.Answers.{IsMade, sum_answer};
ghost use Rattle.vc_expr.specs.Names.{Has, trees_of, Grows};
ghost use Rattle.vc_exprio.specs.BuildAnswers.{IsBuildable, AreBuildable, AreMade, IsMadeOne, IsPut};
ghost use Rattle.vc_exprio.specs.Building.{BuildRefusal, atoms_of, sum_call, product_call, weight_call, star_call, both_call, shuffle_call};
ghost use Rattle.vc_exprio.specs.Making.{more_parts, occurrences_in, of_one, of_two, replaced, put_behind, lacking, made_after, made_by};
ghost use Rattle.vc_exprio.specs.Meaning as meaning;
ghost use Rattle.vc_exprio.specs.Occurring.{IsOccurrenceOver, AreOccurrencesOver, letters_over};
ghost use Rattle.vc_exprio.specs.Spelling.{weight_of_mark};
ghost use Rattle.vc_exprio.specs.Steps.{weight_op};
ghost use Rattle.vc_exprio.specs.Views.{step_seen};
ghost use Rattle.vc_label.specs.Sets.{IsOverSets};
ghost use Rattle.vc_lex.specs.Parts.{tape_of};
ghost use Rattle.vc_lex.specs.Views.{seen};
ghost use Rattle.vc_terms.specs.Identities.{atom_of};
ghost use Rattle.vc_terms.specs.Terms.{Term};
ghost use Rattle.vc_text.specs.Escapes.{inside};

use crate::fault::TextFault;
use crate::labels::{find_class, label_of, make_label, step_at};
use crate::step::Step;
use std::alloc::{AllocError, Global};
use std::slice;
use vc_expr::{Expr, ExprFault, Exprs, names_keep_their_trees};
use vc_label::{LabelSet, Word, alphabets_are_sets, words_are_over_sets};
use vc_lex::Token;
use vc_ring::Semiring;
use vc_text::inside;

/// The weight that a token is.
fn weight_of<S: Semiring>(token: Token<'_>) -> S::Value
    requires spelled { IsTrue (is_some (S.spelled (inside token.text.now))) }
    requires fit { IsTrue (S.numbers_fit (inside token.text.now)) }
    ensures value { result ≡ weight_of_mark S.set S.spelled (seen token.entry) }
    ensures in_range { IsTrue (S.set.in_range result) }
{
    match S::read(inside(token.text)) {
        Ok(weight) => weight,
        Err(_) => unreachable!(),
    }
}

/// The last of the names, which is taken away.
fn pop(names: &mut Vec<Expr>) -> Expr
    requires { 1 ≤ length names.old.items }
    ensures { names.old.items ≡ names.new.items ++ result ∷ [] }
{
    match names.pop() {
        Some(name) => name,
        None => unreachable!(),
    }
}

/// Puts a name behind the others.
fn push(names: &mut Vec<Expr>, name: Expr) -> Result<(), AllocError>
    ensures { OnOk result (names.new.items ≡ names.old.items ++ name ∷ []) }
{
    Ok(names.push(name)?)
}

/// Puts the name that a call gave behind the others.
fn put<V>(names: &mut Vec<Expr>, answer: Result<Expr, ExprFault<V>>) -> Result<(), TextFault<V>>
    ensures { IsPut names.old.items answer names.new.items result }
{
    match answer {
        Ok(name) => return Ok(push(names, name)?),
        Err(fault) => return Err(TextFault::from(fault)),
    }
}

/// A label: its first part, and the further ones, with which the steps after it begin.
fn build_label<'t, L: LabelSet, S: Semiring>(
    alloc: Global,
    exprs: &mut Exprs<L, S>,
    labels: &L,
    first: Token<'t>,
    after: &[Step<'t>],
    parts: &mut Vec<&'t [u8]>,
) -> Result<Expr, ExprFault<S::Value>>
    requires { IsOccurrenceOver (L.sets labels.now) (meaning.parts (seen first) (more_parts (map step_seen after.now))) }
    ensures answer { IsMade exprs.new (Ok (atom_of (map tape_of (seen first.entry ∷ more_parts (map step_seen after.now))))) result }
    ensures grows { Grows exprs.old exprs.new }
{
    match make_label(alloc, labels, first, after, parts)? {
        Some(label) => return exprs.atom(label),
        None => return exprs.one(),
    }
}

/// The label with one letter.
fn build_letter<L: LabelSet, S: Semiring>(
    alloc: Global,
    exprs: &mut Exprs<L, S>,
    labels: &L,
    letter: u8,
) -> Result<Expr, ExprFault<S::Value>>
    requires { IsOverSets (L.sets labels.now) ((letter ∷ []) ∷ []) }
    ensures answer { IsMade exprs.new (Ok (atom_of ((letter ∷ []) ∷ []))) result }
    ensures grows { Grows exprs.old exprs.new }
{
    words_are_over_sets();
    let label = label_of(alloc, labels, Word::one(slice::from_ref(&letter)))?;
    exprs.atom(label)
}

/// The sum of the letters of a class.
fn build_class<L: LabelSet, S: Semiring>(
    alloc: Global,
    exprs: &mut Exprs<L, S>,
    labels: &L,
    class: Token<'_>,
) -> Result<Expr, ExprFault<S::Value>>
    requires { IsOccurrenceOver (L.sets labels.now) (meaning.letters (seen class)) }
    ensures answer { IsMade exprs.new (sum_answer S.set (atoms_of (letters_over (L.sets labels.now) (seen class.entry)))) result }
    ensures grows { Grows exprs.old exprs.new }
{
    alphabets_are_sets();
    names_keep_their_trees::<S::Value>();
    let letters = match find_class(labels, class) {
        Some(letters) => letters,
        None => unreachable!(),
    };
    let mut atoms = Vec::new(alloc);
    for letter in letters.letters() {
        let atom = build_letter(alloc, exprs, labels, letter)?;
        push(&mut atoms, atom)?;
    }
    exprs.sum(&atoms)
}

fn build_star<L: LabelSet, S: Semiring>(
    exprs: &mut Exprs<L, S>,
    names: &mut Vec<Expr>,
) -> Result<(), TextFault<S::Value>>
    requires names { All (Has exprs.old) names.old.items }
    requires enough { 1 ≤ length names.old.items }
    ensures answer { AreMade (replaced 1 (of_one (star_call S.set S.Value.eq)) (trees_of exprs.old names.old.items)) exprs.new names.new.items result }
    ensures grows { Grows exprs.old exprs.new }
{
    let operand = pop(names);
    put(names, exprs.star(operand))
}

fn build_weight<L: LabelSet, S: Semiring>(
    exprs: &mut Exprs<L, S>,
    names: &mut Vec<Expr>,
    weight: Token<'_>,
) -> Result<(), TextFault<S::Value>>
    requires names { All (Has exprs.old) names.old.items }
    requires enough { 1 ≤ length names.old.items }
    requires fit { IsBuildable S.spelled S.numbers_fit L.SINGLE (weight_op (seen weight)) }
    ensures answer { AreMade (replaced 1 (of_one (weight_call S.set S.Value.eq (weight_of_mark S.set S.spelled (seen weight.entry)))) (trees_of exprs.old names.old.items)) exprs.new names.new.items result }
    ensures grows { Grows exprs.old exprs.new }
{
    let operand = pop(names);
    put(names, exprs.weight(weight_of::<S>(weight), operand))
}

fn build_product<L: LabelSet, S: Semiring>(
    exprs: &mut Exprs<L, S>,
    names: &mut Vec<Expr>,
    count: usize,
) -> Result<(), TextFault<S::Value>>
    requires names { All (Has exprs.old) names.old.items }
    requires enough { count ≤ length names.old.items }
    ensures answer { AreMade (replaced count (product_call S.set S.Value.eq) (trees_of exprs.old names.old.items)) exprs.new names.new.items result }
    ensures grows { Grows exprs.old exprs.new }
{
    let first = names.len() - count;
    let answer = exprs.product(&names[first..]);
    names.truncate(first);
    put(names, answer)
}

fn build_sum<L: LabelSet, S: Semiring>(
    exprs: &mut Exprs<L, S>,
    names: &mut Vec<Expr>,
    count: usize,
) -> Result<(), TextFault<S::Value>>
    requires names { All (Has exprs.old) names.old.items }
    requires enough { count ≤ length names.old.items }
    ensures answer { AreMade (replaced count (sum_call S.set S.Value.eq) (trees_of exprs.old names.old.items)) exprs.new names.new.items result }
    ensures grows { Grows exprs.old exprs.new }
{
    let first = names.len() - count;
    let answer = exprs.sum(&names[first..]);
    names.truncate(first);
    put(names, answer)
}

fn build_both<L: LabelSet, S: Semiring>(
    exprs: &mut Exprs<L, S>,
    names: &mut Vec<Expr>,
) -> Result<(), TextFault<S::Value>>
    requires names { All (Has exprs.old) names.old.items }
    requires enough { 2 ≤ length names.old.items }
    requires single { IsTrue L.SINGLE }
    ensures answer { AreMade (replaced 2 (of_two (both_call S.set S.Value.eq)) (trees_of exprs.old names.old.items)) exprs.new names.new.items result }
    ensures grows { Grows exprs.old exprs.new }
{
    let second = pop(names);
    let first = pop(names);
    put(names, exprs.both(first, second))
}

fn build_shuffle<L: LabelSet, S: Semiring>(
    exprs: &mut Exprs<L, S>,
    names: &mut Vec<Expr>,
) -> Result<(), TextFault<S::Value>>
    requires names { All (Has exprs.old) names.old.items }
    requires enough { 2 ≤ length names.old.items }
    requires single { IsTrue L.SINGLE }
    ensures answer { AreMade (replaced 2 (of_two (shuffle_call S.set S.Value.eq)) (trees_of exprs.old names.old.items)) exprs.new names.new.items result }
    ensures grows { Grows exprs.old exprs.new }
{
    let second = pop(names);
    let first = pop(names);
    put(names, exprs.shuffle(first, second))
}

/// One step: one call of the store on the names that the last calls gave. `parts` is room for the
/// parts of a label, of which the further ones stand at the front of the steps after it.
fn build_step<'t, L: LabelSet, S: Semiring>(
    alloc: Global,
    exprs: &mut Exprs<L, S>,
    labels: &L,
    names: &mut Vec<Expr>,
    step: Step<'t>,
    after: &[Step<'t>],
    parts: &mut Vec<&'t [u8]>,
) -> Result<(), TextFault<S::Value>>
    requires names { All (Has exprs.old) names.old.items }
    requires enough { made_after S.set S.Value.eq (weight_of_mark S.set S.spelled) (letters_over (L.sets labels.now))
        (trees_of exprs.old names.old.items) (step_seen step) (map step_seen after.now) ≡ lacking → ⊥ }
    requires fit { IsBuildable S.spelled S.numbers_fit L.SINGLE (step_seen step) }
    requires over { AreOccurrencesOver (L.sets labels.now) (occurrences_in (step_seen step ∷ map step_seen after.now)) }
    ensures answer { AreMade (made_after S.set S.Value.eq (weight_of_mark S.set S.spelled) (letters_over (L.sets labels.now))
        (trees_of exprs.old names.old.items) (step_seen step.entry) (map step_seen after.now)) exprs.new names.new.items result }
    ensures grows { Grows exprs.old exprs.new }
{
    match step {
        Step::Zero => return put(names, exprs.zero()),
        Step::Part(first) => {
            return put(
                names,
                build_label(alloc, exprs, labels, first, after, parts),
            );
        }
        Step::More(_) => return Ok(()),
        Step::Class(class) => return put(names, build_class(alloc, exprs, labels, class)),
        Step::Group => return Ok(()),
        Step::Star => return build_star(exprs, names),
        Step::Weight(weight) => return build_weight(exprs, names, weight),
        Step::Product(count) => return build_product(exprs, names, count),
        Step::And => return build_both(exprs, names),
        Step::Shuffle => return build_shuffle(exprs, names),
        Step::Sum(count) => return build_sum(exprs, names, count),
    }
}

/// The expression of some steps.
pub(crate) fn build<L: LabelSet, S: Semiring>(
    alloc: Global,
    exprs: &mut Exprs<L, S>,
    labels: &L,
    steps: &[Step<'_>],
) -> Result<Expr, TextFault<S::Value>>
    requires whole { (r : Result (Term S.Value) (BuildRefusal S.Value)) × (made_by S.set S.Value.eq (weight_of_mark S.set S.spelled) (letters_over (L.sets labels.now))
        [] (map step_seen steps.now) ≡ put_behind [] r) }
    requires fit { AreBuildable S.spelled S.numbers_fit L.SINGLE (map step_seen steps.now) }
    requires over { AreOccurrencesOver (L.sets labels.now) (occurrences_in (map step_seen steps.now)) }
    ensures answer { IsMadeOne (made_by S.set S.Value.eq (weight_of_mark S.set S.spelled) (letters_over (L.sets labels.now))
        [] (map step_seen steps.now)) exprs.new result }
    ensures grows { Grows exprs.old exprs.new }
{
    names_keep_their_trees::<S::Value>();
    let mut names = Vec::new(alloc);
    let mut parts = Vec::new(alloc);
    for at in 0..steps.len() {
        let (step, after) = step_at(steps, at);
        if let Err(fault) = build_step(alloc, exprs, labels, &mut names, step, after, &mut parts) {
            return Err(fault);
        }
    }
    Ok(pop(&mut names))
}
