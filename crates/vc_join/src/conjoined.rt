//! The conjunction of two automata.
ghost use Rattle.std.specs.Prelude.{◌≡◌, ◌≤◌, ◌∷◌, [], All, IfErr, IfOk, IsTrue};
ghost use Rattle.vc_join.specs.Conjunctions.{IsConjunctionStep, conjunction_items};
ghost use Rattle.vc_join.specs.Pairs.{IsOfStates, first_pairs, no_pair, pair_final, pair_initial, pairs_tell};
ghost use Rattle.vc_join.specs.Products.{IsPairProduct};
ghost use Rattle.vc_label.specs.Sets.{IsOverSets};
ghost use Rattle.vc_model.specs.Automata.{coefficient};
ghost use Rattle.vc_model.specs.Series.{both_series};
ghost use Rattle.vc_model.specs.Words.{Tape};
ghost use Rattle.vc_search.specs.Explored.{IsUnexplored};

use crate::laws::{items_are_in_order, pairs_with_equal_labels_are_conjunctions};
use crate::meet::meet_all;
use crate::pairs::{Pair, begin_pairs, pair_weights};
use std::alloc::Global;
use vc_aut::{Proper, proper_automata_are_proper};
use vc_label::LabelSet;
use vc_model::empty_words_are_tested;
use vc_products::conjunctions_have_their_series;
use vc_ring::{MakeFault, Overflow, Semiring};
use vc_search::{Exploration, Moves, explore};

/// Pairs of states of two automata, both of which move by the same label.
#[derive(Drop)]
struct BothMoves<'a, L: LabelSet, S: Semiring> {
    alloc: Global,
    first: &'a Proper<L, S>,
    second: &'a Proper<L, S>,
}

impl<'a, L: LabelSet, S: Semiring> Moves<L, S> for BothMoves<'a, L, S> {
    type Key = Pair;

    ghost first = { λ m. first_pairs S.set S.Value.eq m.first.now.automaton m.second.now.automaton };

    ghost items = { λ m k. conjunction_items S.set m.first.now.automaton m.second.now.automaton k };

    ghost initial = { λ m k. pair_initial S.set m.first.now.automaton m.second.now.automaton k };

    ghost last = { λ m k. pair_final S.set m.first.now.automaton m.second.now.automaton k };

    ghost is_step = { λ m k o. IsConjunctionStep S.set m.first.now.automaton m.second.now.automaton k o };

    ghost is_member = { λ m k. IsOfStates m.first.now.automaton m.second.now.automaton k };

    ghost is_over = { λ m sets. All (λ t. IsOverSets sets t.label) m.first.now.automaton.transitions };

    ghost past = { no_pair };

    ghost same = { pairs_tell };

    fn begin(&self, into: &mut Exploration<L, S, Pair>) -> Result<(), MakeFault<S::Value>> {
        begin_pairs(
            self.alloc,
            self.first.automaton(),
            self.second.automaton(),
            into,
        )
    }

    fn follow(
        &self,
        key: Pair,
        from: u32,
        into: &mut Exploration<L, S, Pair>,
    ) -> Result<(), MakeFault<S::Value>> {
        empty_words_are_tested();
        items_are_in_order::<S::Value>();
        proper_automata_are_proper(self.first);
        proper_automata_are_proper(self.second);
        let lefts = self.first.automaton().transitions_from(key.0);
        let rights = self.second.automaton().transitions_from(key.1);
        meet_all(self.alloc, lefts, rights, from, into)
    }

    fn weights(&self, key: Pair) -> Result<(S::Value, S::Value), Overflow<S::Value>> {
        pair_weights(self.first.automaton(), self.second.automaton(), key)
    }
}

/// The conjunction of two automata over single letters: a state for each pair that is found from
/// the pairs of initial states, where both move by the same letter. Its series is the product of
/// both, word by word.
///
/// `Limit` of `States` comes only where more than `limit` pairs are accessible, `Limit` of
/// `Transitions` only where their moves name more than 4,000,000 triples, and `Overflow` only where
/// a product of two weights does not fit. Where none of these stands, the conjunction comes, or
/// `Memory`.
pub fn conjunction<L: LabelSet, S: Semiring>(
    alloc: Global,
    first: &Proper<L, S>,
    second: &Proper<L, S>,
    labels: L,
    limit: u64,
) -> Result<Proper<L, S>, MakeFault<S::Value>>
    requires limit { limit ≤ 1000000 }
    requires single { IsTrue L.SINGLE }
    requires labels { All (λ t. IsOverSets (L.sets labels) t.label) first.now.automaton.transitions }
    ensures product { IfOk result (λ p. IsPairProduct S.set
        (first_pairs S.set S.Value.eq first.now.automaton second.now.automaton)
        (conjunction_items S.set first.now.automaton second.now.automaton)
        first.now.automaton second.now.automaton limit p.automaton) }
    ensures series { IfOk result (λ p. (a : Tape) → coefficient S.set p.automaton (a ∷ [])
        ≡ both_series S.set (coefficient S.set first.now.automaton)
        (coefficient S.set second.now.automaton) (a ∷ [])) }
    ensures sets { IfOk result (λ p. p.sets ≡ L.sets labels) }
    ensures fault { IfErr result (IsUnexplored S.set
        (conjunction_items S.set first.now.automaton second.now.automaton)
        (first_pairs S.set S.Value.eq first.now.automaton second.now.automaton)
        (IsConjunctionStep S.set first.now.automaton second.now.automaton) limit) }
{
    pairs_with_equal_labels_are_conjunctions::<S::Value>();
    conjunctions_have_their_series::<S::Value>();
    proper_automata_are_proper(first);
    proper_automata_are_proper(second);
    let _ = first.automaton().labels();
    let _ = second.automaton().labels();
    let moves = BothMoves {
        alloc,
        first,
        second,
    };
    let product = match explore(alloc, &moves, labels, limit) {
        Ok(product) => product,
        Err(fault) => return Err(fault),
    };
    proper_automata_are_proper(&product);
    Ok(product)
}
