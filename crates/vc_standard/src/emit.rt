//! The automaton of a structure.
ghost use Rattle.std.specs.Prelude.{◌≡◌, ◌<◌, ◌≤◌, ◌++◌, ◌∷◌, [], All, IfOk, IsTrue, OnOk, length, map, replicate, suc};
ghost use Rattle.vc_aut.specs.Additions.{IsSumAnswer};
ghost use Rattle.vc_aut.specs.Drafts.{without_zeros};
ghost use Rattle.vc_aut.specs.Stored.{automaton_of};
ghost use Rattle.vc_aut.specs.Sums.{insert_all};
ghost use Rattle.vc_label.specs.Sets.{IsOverSets};
ghost use Rattle.vc_model.specs.WeightSet.{InRange};
ghost use Rattle.vc_standard.specs.Automata.{leaving_all, states_of};
ghost use Rattle.vc_standard.specs.Shapes.{shape_of};
ghost use Rattle.vc_standard.specs.Structures.{size_of};
ghost use Rattle.vc_standard.specs.Within.{IsWithin};

use crate::lists::append;
use crate::shapes::Shape;
use crate::states::{add_state, add_states};
use std::alloc::{AllocError, Global};
use vc_aut::Automaton;
use vc_label::LabelSet;
use vc_ring::{MakeFault, Semiring};

/// The initial weights: one at the start, and zero at each of the positions.
fn initial_weights<S: Semiring>(
    alloc: Global,
    positions: usize,
) -> Result<Vec<S::Value>, AllocError>
    requires { positions < 1000000 }
    ensures weights { IfOk result (λ v. v.items ≡ S.set.one ∷ replicate positions S.set.zero) }
    ensures in_range { IfOk result (λ v. InRange S.set v.items) }
{
    let mut weights = Vec::with_capacity(alloc, positions + 1)?;
    append(&mut weights, S::one())?;
    for _ in 0..positions {
        append(&mut weights, S::zero())?;
    }
    Ok(weights)
}

/// The automaton of a structure: state 0 is the start, and each position is the state behind its
/// place.
pub(crate) fn automaton_of_shape<L: LabelSet, S: Semiring>(
    alloc: Global,
    labels: L,
    shape: Shape<L, S>,
) -> Result<Automaton<L, S>, MakeFault<S::Value>>
    requires few { size_of (shape_of L.parts shape) < 1000000 }
    requires within { IsWithin (λ a. IsOverSets (L.sets labels) a) (shape_of L.parts shape) }
    ensures ok { IfOk result (λ a. a ≡ record {
      sets = L.sets labels;
      automaton = automaton_of (S.set.one ∷ replicate (size_of (shape_of L.parts shape)) S.set.zero)
          (map (λ p. p.final) (states_of (shape_of L.parts shape)))
          (without_zeros S.set S.Value.eq (insert_all S.set [] (leaving_all 0 (states_of (shape_of L.parts shape)))));
    }) }
    ensures answer { IsSumAnswer S.set (leaving_all 0 (states_of (shape_of L.parts shape))) result }
{
    let Shape { start, positions } = shape;
    let list = positions.list;
    let initial = initial_weights::<S>(alloc, list.len())?;
    let mut finals = Vec::new(alloc);
    let mut transitions = Vec::new(alloc);
    add_state::<L, S>(0, start, &mut finals, &mut transitions)?;
    add_states::<L, S>(list, &mut finals, &mut transitions)?;
    Automaton::from_transitions(alloc, labels, initial, finals, transitions)
}
