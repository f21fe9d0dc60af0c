//! Automata over the label set of a product.
ghost use Rattle.std.specs.Prelude.{◌≡◌, All, IfOk};
ghost use Rattle.vc_aut.specs.Wider.{over_sets};
ghost use Rattle.vc_label.specs.Sets.{IsOverSets};
ghost use Rattle.vc_model.specs.Automata.{coefficient};
ghost use Rattle.vc_model.specs.Words.{Word};

use std::alloc::{AllocError, Global};
use vc_aut::Proper;
use vc_label::LabelSet;
use vc_ring::Semiring;

/// The automaton with the labels of another set, as one that a product with another automaton wants:
/// states, weights, transitions and series stay as they are. It refuses for memory alone.
pub fn widen<K: LabelSet, L: LabelSet, S: Semiring>(
    alloc: Global,
    aut: &Proper<K, S>,
    labels: L,
) -> Result<Proper<L, S>, AllocError>
    requires { All (λ t. IsOverSets (L.sets labels) t.label) aut.now.automaton.transitions }
    ensures automaton { IfOk result (λ p. p ≡ over_sets (L.sets labels) aut.now) }
    ensures series { IfOk result (λ p. (w : Word)
        → coefficient S.set p.automaton w ≡ coefficient S.set aut.now.automaton w) }
{
    aut.with_labels(alloc, labels)
}
