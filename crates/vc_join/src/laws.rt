//! What products of pairs are.
ghost use Rattle.std.specs.Prelude.{ℕ, Bool, map};
ghost use Rattle.vc_aut.specs.Order.{AreInOrder, moves_from};
ghost use Rattle.vc_join.specs.Conjunctions.{conjunction_items};
ghost use Rattle.vc_join.specs.Orders.{item_before};
ghost use Rattle.vc_join.specs.Pairs.{Pair, first_pairs};
ghost use Rattle.vc_join.specs.Products.{IsPairProduct, MovesAlone, MovesTogether};
ghost use Rattle.vc_join.specs.Shuffles.{left_item, right_item, shuffle_items};
ghost use Rattle.vc_model.specs.Automata.{Automaton, IsAutomaton};
ghost use Rattle.vc_model.specs.Gathered.{IsAscending};
ghost use Rattle.vc_model.specs.Items.{item_key};
ghost use Rattle.vc_model.specs.Letters.{HasLetters};
ghost use Rattle.vc_model.specs.Lists.{IsEqualityTest, NoRepeat};
ghost use Rattle.vc_model.specs.WeightSet.{SemiringLaws, WeightSet};

use vc_label::words_are_ordered;
use vc_model::{members_are_numbered, sums_of_members};
use vc_search::explored_automata_stand_for_members;

/// A product of pairs that move by the same letter is a conjunction.
pub fn pairs_with_equal_labels_are_conjunctions<V>()
    ensures { (R : WeightSet V) → SemiringLaws R → (same : V → V → Bool) → IsEqualityTest same
        → (A B P : Automaton V) (tapes limit : ℕ) → IsAutomaton R tapes A → IsAutomaton R tapes B
        → HasLetters A → HasLetters B → IsPairProduct R (first_pairs R same A B)
        (conjunction_items R A B) A B limit P → MovesTogether R A B P }
{
    explored_automata_stand_for_members::<V, (u32, u32)>();
    members_are_numbered::<(u32, u32)>();
    sums_of_members::<V, (u32, u32)>();
}

/// A product of pairs of which one state moves while the other stays is a shuffle.
pub fn pairs_that_move_alone_are_shuffles<V>()
    ensures { (R : WeightSet V) → SemiringLaws R → (same : V → V → Bool) → IsEqualityTest same
        → (A B P : Automaton V) (tapes limit : ℕ) → IsAutomaton R tapes A → IsAutomaton R tapes B
        → IsPairProduct R (first_pairs R same A B) (shuffle_items R A B) A B limit P
        → MovesAlone R A B P }
{
    words_are_ordered();
    explored_automata_stand_for_members::<V, (u32, u32)>();
    members_are_numbered::<(u32, u32)>();
    sums_of_members::<V, (u32, u32)>();
}

/// What a pair leads to in a conjunction stands by label, then by the first state, and then by the
/// second, so that it leads to no pair twice by one label.
pub fn items_are_in_order<V>()
    ensures order { (R : WeightSet V) (A B : Automaton V) (k : Pair) → AreInOrder A.transitions
        → AreInOrder B.transitions → IsAscending item_before (conjunction_items R A B k) }
    ensures once { (R : WeightSet V) (A B : Automaton V) (k : Pair) → AreInOrder A.transitions
        → AreInOrder B.transitions → NoRepeat (map item_key (conjunction_items R A B k)) }
{
    words_are_ordered();
}

/// What a pair leads to in a shuffle stands in the same order, as the moves of either state do.
pub fn shuffled_items_are_in_order<V>()
    ensures order { (R : WeightSet V) (A B : Automaton V) (k : Pair) → AreInOrder A.transitions
        → IsAscending item_before (shuffle_items R A B k) }
    ensures once { (R : WeightSet V) (A B : Automaton V) (k : Pair) → AreInOrder A.transitions
        → NoRepeat (map item_key (shuffle_items R A B k)) }
    ensures left { (A : Automaton V) (k : Pair) → AreInOrder A.transitions
        → IsAscending item_before (map (left_item k.1) (moves_from A.transitions k.0)) }
    ensures right { (B : Automaton V) (k : Pair) → AreInOrder B.transitions
        → IsAscending item_before (map (right_item k.0) (moves_from B.transitions k.1)) }
{
    words_are_ordered();
}
