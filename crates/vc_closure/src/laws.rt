//! What a closure is, and what it keeps.
ghost use Rattle.std.specs.Prelude.{◌≡◌, ◌<◌, ℕ, length};
ghost use Rattle.vc_aut.specs.Order.{AreInOrder};
ghost use Rattle.vc_closure.specs.Closing.{IsClosed, IsClosing, closure};
ghost use Rattle.vc_model.specs.Automata.{Automaton, IsAutomaton, IsProper, IsSound, coefficient, future};
ghost use Rattle.vc_model.specs.Closures.{IsClosure};
ghost use Rattle.vc_model.specs.WeightSet.{SemiringLaws, WeightSet};
ghost use Rattle.vc_model.specs.Words.{Word};

use vc_model::{closures_keep_futures, gathering_keeps_sums, transitions_are_gathered};

/// Where no circuit is empty, or one absorbs, the closure is the unit matrix and the empty
/// transitions times the closure; and an automaton that it makes without empty labels keeps the
/// futures and the series. One that had none is its own.
pub fn closings_keep_futures<V>()
    ensures closed { (R : WeightSet V) → SemiringLaws R → (tapes : ℕ) (A : Automaton V)
        → IsAutomaton R tapes A → IsSound R tapes A → IsClosed R A (closure R A) }
    ensures closure { (R : WeightSet V) → SemiringLaws R → (tapes : ℕ) (A P : Automaton V)
        → IsAutomaton R tapes A → IsSound R tapes A → IsClosing R A P (closure R A)
        → IsClosure R A P (closure R A) }
    ensures proper { (R : WeightSet V) → SemiringLaws R → (A P : Automaton V) (K : ℕ → ℕ → V)
        → IsClosing R A P K → IsProper P }
    ensures future { (R : WeightSet V) → SemiringLaws R → (tapes : ℕ) (A P : Automaton V)
        → IsAutomaton R tapes A → IsAutomaton R tapes P → IsSound R tapes A
        → IsClosing R A P (closure R A) → (p : ℕ) (w : Word)
        → p < A.states → length w ≡ tapes → future R P p w ≡ future R A p w }
    ensures coefficient { (R : WeightSet V) → SemiringLaws R → (tapes : ℕ) (A P : Automaton V)
        → IsAutomaton R tapes A → IsAutomaton R tapes P → IsSound R tapes A
        → IsClosing R A P (closure R A) → (w : Word) → length w ≡ tapes
        → coefficient R P w ≡ coefficient R A w }
    ensures same { (R : WeightSet V) → SemiringLaws R → (tapes : ℕ) (A P : Automaton V)
        → IsAutomaton R tapes A → IsAutomaton R tapes P → IsProper A
        → AreInOrder A.transitions → AreInOrder P.transitions
        → IsClosing R A P (closure R A) → P ≡ A }
{
    transitions_are_gathered::<V>();
    gathering_keeps_sums::<V>();
    closures_keep_futures::<V>();
}
