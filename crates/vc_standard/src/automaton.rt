//! Standard automata of expressions.
ghost use Rattle.std.specs.Prelude.{◌≡◌, ◌≢◌, ◌↔◌, ◌<◌, ◌≤◌, ◌+◌, Err, IfErr, IfOk, length};
ghost use Rattle.vc_expr.specs.Names.{Has, tree_of};
ghost use Rattle.vc_label.specs.Sets.{IsOverSets};
ghost use Rattle.vc_model.specs.Automata.{Transition, coefficient};
ghost use Rattle.vc_model.specs.Lists.{In};
ghost use Rattle.vc_model.specs.Words.{Word};
ghost use Rattle.vc_ring.specs.declared.faults.MakeFault.TheVariants.{Limit as PastLimit};
ghost use Rattle.vc_standard.specs.Automata.{IsStandardOf};
ghost use Rattle.vc_standard.specs.Refusals.{IsRefusal, limit_of_states};
ghost use Rattle.vc_standard.specs.Structures.{standard_of};
ghost use Rattle.vc_terms.specs.Expansions.{AtomsAre};
ghost use Rattle.vc_terms.specs.Terms.{bound_of, coefficient_of};

use crate::laws::{standard_automata_have_their_series, structures_have_their_size};
use crate::make::make;
use std::alloc::Global;
use vc_aut::{Proper, proper_automata_are_proper};
use vc_expr::{Expr, Exprs, stores_are_valid};
use vc_label::{LabelSet, words_are_over_sets};
use vc_ring::{Limit, MakeFault, Measure, Semiring};

/// The standard automaton of an expression (Sakarovitch, Elements of Automata Theory). It has the
/// expression's series, a state for each position, and a start, state 0, which alone is initial and
/// which no transition enters.
///
/// `Limit` of states comes before anything is built, exactly where the bound of the expression and
/// one is past the limit given; `Limit` of transitions only where more than 4,000,000 triples are
/// named for the expression or for one that stands in it; `Overflow` names a step of the formula
/// that does not fit.
pub fn standard<L: LabelSet, S: Semiring>(
    alloc: Global,
    exprs: &Exprs<L, S>,
    labels: L,
    e: Expr,
    limit: u64,
) -> Result<Proper<L, S>, MakeFault<S::Value>>
    requires e { Has exprs.now e }
    requires labels { AtomsAre (IsOverSets (L.sets labels)) (tree_of exprs.now e) }
    requires some { 1 ≤ limit }
    requires few { limit ≤ 1000000 }
    ensures sets { IfOk result (λ a. a.sets ≡ L.sets labels) }
    ensures automaton { IfOk result (λ a. IsStandardOf S.set (standard_of S.set S.Value.eq (tree_of
        exprs.now e)) a.automaton) }
    ensures size { IfOk result (λ a. a.automaton.states ≡ bound_of (tree_of exprs.now e) + 1) }
    ensures series { IfOk result (λ a. (w : Word) → length w ≡ length (L.sets labels) → coefficient
        S.set a.automaton w ≡ coefficient_of S.set (tree_of exprs.now e) w) }
    ensures start { IfOk result (λ a. (t : Transition S.Value) → In t a.automaton.transitions → t.to
        ≢ 0) }
    ensures states { (result ≡ Err (PastLimit (limit_of_states limit))) ↔ (limit < bound_of (tree_of
        exprs.now e) + 1) }
    ensures refusal { IfErr result (λ f. IsRefusal S.set S.Value.eq limit (tree_of exprs.now e) f) }
{
    if exprs.bound(e) >= limit {
        return Err(MakeFault::Limit(Limit {
            what: Measure::States,
            most: limit,
        }));
    }
    stores_are_valid(exprs);
    structures_have_their_size::<S::Value>();
    standard_automata_have_their_series::<S::Value>();
    words_are_over_sets();
    match make::<L, S>(alloc, exprs, labels, e) {
        Ok(aut) => {
            proper_automata_are_proper(&aut);
            return Ok(aut);
        }
        Err(fault) => return Err(fault),
    }
}
