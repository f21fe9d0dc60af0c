//! Commands that print a product of the automata of two files.
ghost use Rattle.std.specs.Prelude.{◌≡◌, ◌≤◌, ◌∷◌, ◌||◌, ℕ, [], All, IfErr, IfOk, IsTrue};
ghost use Rattle.vc_aut.specs.Wider.{AreWithin};
ghost use Rattle.vc_command.specs.Requests.{IsLimit};
ghost use Rattle.vc_context.specs.Sets.{tapes_of};
ghost use Rattle.vc_join.specs.Pairs.{first_pairs};
ghost use Rattle.vc_join.specs.Products.{IsPairProduct};
ghost use Rattle.vc_label.specs.Alphabets.{has_letter};
ghost use Rattle.vc_label.specs.Sets.{IsOverSets};
ghost use Rattle.vc_label.specs.declared.tape_set.TapeKind.TheVariants.{Nullable as NullableKind};
ghost use Rattle.vc_label.specs.declared.tape_set.TapeSet.{TapeSet};
ghost use Rattle.vc_model.specs.Automata.{coefficient};
ghost use Rattle.vc_model.specs.Series.{SameOn, Series};
ghost use Rattle.vc_model.specs.Words.{Tape};
ghost use Rattle.vc_search.specs.Explored.{IsUnexplored};
ghost use Rattle.vc_top.specs.Automata.{Prints};
ghost use Rattle.vc_top.specs.Operations.{WithProper};
ghost use Rattle.vc_top.specs.Outcomes.{Gives, OrMemory};
ghost use Rattle.vc_top.specs.Products.{AnswersProduct, AnswersProductOver, AreJoint, IsStepOf, WithProduct, items_of, joint_kind, series_of};
ghost use Rattle.vc_top.specs.Views.{answer_of, input_of, labelled_of, seen_by};

use crate::automata::text_of;
use crate::input::{AnyInput, AnyOf};
use crate::operation::closed;
use crate::refusal::{Refusal, made_not};
use std::alloc::Global;
use vc_atoms::{Letters, Nullable};
use vc_aut::{Automaton, Proper, labels_are_over_wider_sets, proper_automata_are_proper};
use vc_context::{AnyContext, AnyLabels, Weights, labels_have_tapes};
use vc_join::{conjunction, shuffle, widen};
use vc_label::{Alphabet, LabelSet};
use vc_ring::{MakeFault, Semiring, Weighed};
use vc_search::members_are_few;

/// A product of two automata.
#[derive(Clone, Copy)]
pub(crate) enum Product {
    /// Both move by the same letter.
    Conjunction,
    /// One of both moves while the other stays.
    Shuffle,
}

/// The product of two automata over single letters.
fn joined<L: LabelSet, S: Semiring>(
    alloc: Global,
    product: Product,
    first: &Proper<L, S>,
    second: &Proper<L, S>,
    labels: L,
    limit: u64,
) -> Result<Proper<L, S>, MakeFault<S::Value>>
    requires limit { limit ≤ 1000000 }
    requires single { IsTrue L.SINGLE }
    requires first_labels { All (λ t. IsOverSets (L.sets labels) t.label)
        first.now.automaton.transitions }
    requires second_labels { All (λ t. IsOverSets (L.sets labels) t.label)
        second.now.automaton.transitions }
    ensures product { IfOk result (λ p. IsPairProduct S.set
        (first_pairs S.set S.Value.eq first.now.automaton second.now.automaton)
        (items_of product S.set first.now.automaton second.now.automaton)
        first.now.automaton second.now.automaton limit p.automaton) }
    ensures series { IfOk result (λ p. (a : Tape) → coefficient S.set p.automaton (a ∷ [])
        ≡ series_of product S.set (coefficient S.set first.now.automaton)
        (coefficient S.set second.now.automaton) (a ∷ [])) }
    ensures sets { IfOk result (λ p. p.sets ≡ L.sets labels) }
    ensures fault { IfErr result (IsUnexplored S.set
        (items_of product S.set first.now.automaton second.now.automaton)
        (first_pairs S.set S.Value.eq first.now.automaton second.now.automaton)
        (IsStepOf product S.set first.now.automaton second.now.automaton) limit) }
{
    match product {
        Product::Conjunction => conjunction(alloc, first, second, labels, limit),
        Product::Shuffle => shuffle(alloc, first, second, labels, limit),
    }
}

/// The text of the product of two automata without empty labels, in the context of these labels.
fn joined_text<'w, L: LabelSet, S: Semiring>(
    alloc: Global,
    product: Product,
    context: &AnyContext,
    labels: L,
    first: &Proper<L, S>,
    second: &Proper<L, S>,
    limit: u64,
) -> Result<String, Refusal<'w>>
    requires sets { tapes_of context.now.labels ≡ L.sets labels }
    requires single { IsTrue L.SINGLE }
    requires limit { IsLimit limit }
    requires first_labels { All (λ t. IsOverSets (L.sets labels) t.label)
        first.now.automaton.transitions }
    requires second_labels { All (λ t. IsOverSets (L.sets labels) t.label)
        second.now.automaton.transitions }
    ensures { (f g : Series S.Value) → SameOn 1 (coefficient S.set first.now.automaton) f
        → SameOn 1 (coefficient S.set second.now.automaton) g
        → OrMemory (WithProduct ⟦<S as Weighed>⟧.texts product limit (L.sets labels) f g
        first.now.automaton second.now.automaton
        (Prints ⟦<S as Weighed>⟧.texts context.now.weights)) (answer_of result) }
{
    members_are_few::<(u32, u32)>();
    match joined(alloc, product, first, second, labels, limit) {
        Ok(proper) => {
            proper_automata_are_proper(&proper);
            return text_of(alloc, context, proper.automaton());
        }
        Err(fault) => return Err(made_not(fault)),
    }
}

/// The automaton without empty labels, over labels that have each of its own.
fn widened<'w, K: LabelSet, L: LabelSet, S: Semiring>(
    alloc: Global,
    automaton: &Automaton<K, S>,
    labels: L,
) -> Result<Proper<L, S>, Refusal<'w>>
    requires { AreWithin automaton.now.sets (L.sets labels) }
    ensures closed { OrMemory (WithProper ⟦<S as Weighed>⟧.texts S.ABSORBS automaton.now (λ p.
        Gives p.automaton)) (seen_by (λ p. p.automaton) result) }
    ensures labels { IfOk result (λ p. All (λ t. IsOverSets (L.sets labels) t.label)
        p.automaton.transitions) }
{
    let proper = match closed(alloc, automaton) {
        Ok(proper) => proper,
        Err(refusal) => return Err(refusal),
    };
    labels_are_over_wider_sets(proper.automaton());
    match widen(alloc, &proper, labels) {
        Ok(proper) => return Ok(proper),
        Err(_) => return Err(Refusal::Memory),
    }
}

/// The text of the product of two automata, over labels that have each of theirs.
fn product_in<'w, K: LabelSet, M: LabelSet, L: LabelSet, S: Semiring>(
    alloc: Global,
    product: Product,
    context: &AnyContext,
    labels: L,
    first: &Automaton<K, S>,
    second: &Automaton<M, S>,
    limit: u64,
) -> Result<String, Refusal<'w>>
    requires sets { tapes_of context.now.labels ≡ L.sets labels }
    requires single { IsTrue L.SINGLE }
    requires limit { IsLimit limit }
    requires joint { AreJoint first.now.sets second.now.sets (L.sets labels) }
    ensures { OrMemory (AnswersProductOver ⟦<S as Weighed>⟧.texts product limit S.ABSORBS
        context.now.weights first.now second.now) (answer_of result) }
{
    let left = match widened::<K, L, S>(alloc, first, labels) {
        Ok(proper) => proper,
        Err(refusal) => return Err(refusal),
    };
    let right = match widened::<M, L, S>(alloc, second, labels) {
        Ok(proper) => proper,
        Err(refusal) => return Err(refusal),
    };
    joined_text(alloc, product, context, labels, &left, &right, limit)
}

/// The letters of two label sets of one tape.
fn letters_of<K: LabelSet, M: LabelSet>(first: &K, second: &M) -> Alphabet
    requires first { IsTrue K.SINGLE }
    requires second { IsTrue M.SINGLE }
    ensures { (s t : TapeSet) → K.sets first.now ≡ s ∷ [] → M.sets second.now ≡ t ∷ []
        → (x : ℕ) → has_letter result x ≡ (has_letter s.alphabet x || has_letter t.alphabet x) }
{
    first.tape(0).alphabet.union(second.tape(0).alphabet)
}

/// The text of the product of two automata over single letters.
fn product_of_letters<'w, S: Semiring>(
    alloc: Global,
    product: Product,
    weights: Weights,
    first: &Automaton<Letters, S>,
    second: &Automaton<Letters, S>,
    limit: u64,
) -> Result<String, Refusal<'w>>
    requires { IsLimit limit }
    ensures { OrMemory (AnswersProductOver ⟦<S as Weighed>⟧.texts product limit S.ABSORBS weights
        first.now second.now) (answer_of result) }
{
    labels_have_tapes();
    let labels = Letters::new(letters_of(first.labels(), second.labels()));
    let context = AnyContext {
        labels: AnyLabels::Letters(labels),
        weights,
    };
    product_in(alloc, product, &context, labels, first, second, limit)
}

/// The text of the product of two automata, of which one may have empty labels.
fn product_of_nullable<'w, K: LabelSet, M: LabelSet, S: Semiring>(
    alloc: Global,
    product: Product,
    weights: Weights,
    first: &Automaton<K, S>,
    second: &Automaton<M, S>,
    limit: u64,
) -> Result<String, Refusal<'w>>
    requires limit { IsLimit limit }
    requires first { IsTrue K.SINGLE }
    requires second { IsTrue M.SINGLE }
    requires kind { (k : K) (m : M) (s t : TapeSet) → K.sets k ≡ s ∷ [] → M.sets m ≡ t ∷ []
        → joint_kind s.kind t.kind ≡ NullableKind }
    ensures { OrMemory (AnswersProductOver ⟦<S as Weighed>⟧.texts product limit S.ABSORBS weights
        first.now second.now) (answer_of result) }
{
    labels_have_tapes();
    let labels = Nullable::new(letters_of(first.labels(), second.labels()));
    let context = AnyContext {
        labels: AnyLabels::Nullable(labels),
        weights,
    };
    product_in(alloc, product, &context, labels, first, second, limit)
}

/// The text of the product of two automata over any labels, over the weight set of this name.
fn product_over<'w, S: Semiring>(
    alloc: Global,
    product: Product,
    weights: Weights,
    first: &AnyOf<S>,
    second: &AnyOf<S>,
    limit: u64,
) -> Result<String, Refusal<'w>>
    requires { IsLimit limit }
    ensures { OrMemory (AnswersProductOver ⟦<S as Weighed>⟧.texts product limit S.ABSORBS weights
        (labelled_of first.now) (labelled_of second.now)) (answer_of result) }
{
    match (first, second) {
        (AnyOf::Letters(a), AnyOf::Letters(b)) => {
            product_of_letters(alloc, product, weights, a, b, limit)
        }
        (AnyOf::Letters(a), AnyOf::Nullable(b)) => {
            product_of_nullable(alloc, product, weights, a, b, limit)
        }
        (AnyOf::Nullable(a), AnyOf::Letters(b)) => {
            product_of_nullable(alloc, product, weights, a, b, limit)
        }
        (AnyOf::Nullable(a), AnyOf::Nullable(b)) => {
            product_of_nullable(alloc, product, weights, a, b, limit)
        }
        (AnyOf::Words(a), _) => {
            let _ = a.labels();
            Err(Refusal::Contexts)
        }
        (AnyOf::Tuple(a), _) => {
            let _ = a.labels();
            Err(Refusal::Contexts)
        }
        (_, AnyOf::Words(b)) => {
            let _ = b.labels();
            Err(Refusal::Contexts)
        }
        (_, AnyOf::Tuple(b)) => {
            let _ = b.labels();
            Err(Refusal::Contexts)
        }
    }
}

/// `conjunction A B` and `shuffle A B`: the canonical text of the product.
pub(crate) fn print_product<'w>(
    alloc: Global,
    product: Product,
    first: &AnyInput,
    second: &AnyInput,
    limit: u64,
) -> Result<String, Refusal<'w>>
    requires { IsLimit limit }
    ensures { OrMemory (AnswersProduct product limit (input_of first.now) (input_of second.now))
        (answer_of result) }
{
    match (first, second) {
        (AnyInput::B(a), AnyInput::B(b)) => {
            product_over(alloc, product, Weights::B, a, b, limit)
        }
        (AnyInput::F2(a), AnyInput::F2(b)) => {
            product_over(alloc, product, Weights::F2, a, b, limit)
        }
        (AnyInput::Z(a), AnyInput::Z(b)) => {
            product_over(alloc, product, Weights::Z, a, b, limit)
        }
        (AnyInput::Q(a), AnyInput::Q(b)) => {
            product_over(alloc, product, Weights::Q, a, b, limit)
        }
        (AnyInput::Nmin(a), AnyInput::Nmin(b)) => {
            product_over(alloc, product, Weights::Nmin, a, b, limit)
        }
        _ => Err(Refusal::Contexts),
    }
}
