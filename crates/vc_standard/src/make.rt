//! The automaton of an expression.
ghost use Rattle.std.specs.Prelude.{◌≡◌, ◌<◌, IfErr, IfOk};
ghost use Rattle.vc_expr.specs.Names.{Has, tree_of};
ghost use Rattle.vc_label.specs.Sets.{IsOverSets};
ghost use Rattle.vc_standard.specs.Automata.{IsStandardOf};
ghost use Rattle.vc_standard.specs.Named.{NamesMore};
ghost use Rattle.vc_standard.specs.Refusals.{IsFault};
ghost use Rattle.vc_standard.specs.Steps.{IsStep};
ghost use Rattle.vc_standard.specs.Structures.{standard_of};
ghost use Rattle.vc_terms.specs.Expansions.{AtomsAre};
ghost use Rattle.vc_terms.specs.Terms.{bound_of};

use crate::build::build;
use crate::emit::automaton_of_shape;
use std::alloc::Global;
use vc_aut::{Proper, drafts_are_sums, transitions_are_added};
use vc_expr::{Expr, Exprs, stores_are_valid};
use vc_label::LabelSet;
use vc_model::transitions_are_gathered;
use vc_ring::{MakeFault, Semiring};

/// The standard automaton of an expression with few positions.
pub(crate) fn make<L: LabelSet, S: Semiring>(
    alloc: Global,
    exprs: &Exprs<L, S>,
    labels: L,
    e: Expr,
) -> Result<Proper<L, S>, MakeFault<S::Value>>
    requires e { Has exprs.now e }
    requires labels { AtomsAre (IsOverSets (L.sets labels)) (tree_of exprs.now e) }
    requires few { bound_of (tree_of exprs.now e) < 1000000 }
    ensures sets { IfOk result (λ a. a.sets ≡ L.sets labels) }
    ensures automaton { IfOk result (λ a. IsStandardOf S.set (standard_of S.set S.Value.eq (tree_of
        exprs.now e)) a.automaton) }
    ensures fault { IfErr result (λ f. IsFault S.set (IsStep S.set S.Value.eq (tree_of exprs.now e))
        (NamesMore S.set S.Value.eq 4000000 (tree_of exprs.now e)) f) }
{
    stores_are_valid(exprs);
    drafts_are_sums::<S::Value>();
    transitions_are_added::<S::Value>();
    transitions_are_gathered::<S::Value>();
    let shape = build(alloc, exprs, e)?;
    let aut = automaton_of_shape::<L, S>(alloc, labels, shape)?;
    match aut.into_proper() {
        Ok(proper) => return Ok(proper),
        Err(_) => unreachable!(),
    }
}
