//! What numberings and explored automata are.
ghost use Rattle.std.specs.Prelude.{◌≡◌, ◌≤◌, ℕ, Bool, List, length, slice_index_or};
ghost use Rattle.vc_model.specs.Automata.{Automaton};
ghost use Rattle.vc_model.specs.Items.{Item};
ghost use Rattle.vc_model.specs.Lists.{IsEqualityTest};
ghost use Rattle.vc_model.specs.Machines.{StandsFor};
ghost use Rattle.vc_model.specs.Numbering.{IsNumbering};
ghost use Rattle.vc_model.specs.WeightSet.{SemiringLaws, WeightSet};
ghost use Rattle.vc_search.specs.Explored.{HasMoreThan, IsExplored, next_by};

use vc_model::{machines_stand_for_things, members_are_numbered};

/// Where the members are numbered and no more than so many, no more are accessible: so an answer
/// with at most so many members excludes a limit of so many. There is one numbering.
pub fn members_are_few<K>()
    ensures few { (same : K → K → Bool) → IsEqualityTest same → (next : K → List K)
        (first members : List K) (n : ℕ) → IsNumbering same next first members
        → length members ≤ n → ¬ HasMoreThan next first n }
    ensures one { (same : K → K → Bool) → IsEqualityTest same → (next : K → List K)
        (first members others : List K) → IsNumbering same next first members
        → IsNumbering same next first others → members ≡ others }
{
    members_are_numbered::<K>();
}

/// Each state of an explored automaton stands for its member: it ends with the member's final
/// weight, and its transitions bring what the member's items bring.
pub fn explored_automata_stand_for_members<V, K>()
    ensures { (R : WeightSet V) → SemiringLaws R → (same : K → K → Bool) → IsEqualityTest same
        → (past : K) (first : List K) (items : K → List (Item V K)) (initial last : K → V)
        (members : List K) (A : Automaton V) → IsNumbering same (next_by items) first members
        → IsExplored R same past items initial last members A
        → StandsFor R A (λ i. slice_index_or members i past) last items }
{
    machines_stand_for_things::<V, K>();
    members_are_numbered::<K>();
}
