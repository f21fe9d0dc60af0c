//! What texts of expressions mean.
ghost use Rattle.std.specs.Prelude.{◌≡◌, ◌∷◌, [], ℕ, Bool, List, Ok, Some, Option};
ghost use Rattle.vc_expr.specs.Facts.{HasRootValues};
ghost use Rattle.vc_terms.specs.Forms.{Everywhere, IsBuilt};
ghost use Rattle.vc_exprio.specs.Building.{building};
ghost use Rattle.vc_exprio.specs.Canonical.{expression_text, IsRootOver};
ghost use Rattle.vc_exprio.specs.Depths.{depths_by};
ghost use Rattle.vc_exprio.specs.Fronts.{IsFaultAt};
ghost use Rattle.vc_exprio.specs.Grammar.{SpellsTree};
ghost use Rattle.vc_exprio.specs.Machine.{tree_of, fault_place};
ghost use Rattle.vc_exprio.specs.Making.{made_by, occurrences_in, put_behind};
ghost use Rattle.vc_exprio.specs.Meaning.{depth, occurrences, term_of};
ghost use Rattle.vc_exprio.specs.Steps.{steps_of};
ghost use Rattle.vc_lex.specs.Marks.{Mark};
ghost use Rattle.vc_exprio.specs.Spelling.{SpellsText, SpellsBuilt};
ghost use Rattle.vc_exprio.specs.Trees.{Tree};
ghost use Rattle.vc_label.specs.declared.tape_set.TapeSet.{TapeSet};
ghost use Rattle.vc_model.specs.Lists.{IsEqualityTest};
ghost use Rattle.vc_terms.specs.Identities.{built_of};
ghost use Rattle.vc_terms.specs.Terms.{Term};
ghost use Rattle.vc_model.specs.WeightSet.{WeightSet, SemiringLaws};
ghost use Rattle.vc_ring.specs.Texts.{TextLaws};

use vc_label::words_are_over_sets;
use vc_lex::texts_have_their_tokens;

/// The tree that is read from tokens is the one that they spell by the grammar, and tokens spell at most one.
pub fn tokens_have_their_tree()
    ensures sound { (is_weight : Mark → Bool) (ms : List Mark) (t : Tree) → tree_of is_weight ms ≡ Some t → SpellsTree is_weight ms t }
    ensures complete { (is_weight : Mark → Bool) (ms : List Mark) (t : Tree) → SpellsTree is_weight ms t → tree_of is_weight ms ≡ Some t }
    ensures one { (is_weight : Mark → Bool) (ms : List Mark) (t u : Tree) → SpellsTree is_weight ms t → SpellsTree is_weight ms u → t ≡ u }
{}

/// The place of the fault in tokens that are no expression: the first token behind the longest front with which an
/// expression can begin, or the end of the text. There is exactly one.
pub fn faults_have_one_place()
    ensures found { (is_weight : Mark → Bool) (end : ℕ) (ms : List Mark) → IsFaultAt is_weight end ms (fault_place is_weight end ms) }
    ensures only { (is_weight : Mark → Bool) (end : ℕ) (ms : List Mark) (at : ℕ) → IsFaultAt is_weight end ms at → at ≡ fault_place is_weight end ms }
{}

/// A text spells at most one tree.
pub fn texts_spell_one_tree()
    ensures { (is_weight : Mark → Bool) (text : List ℕ) (t u : Tree) → SpellsText is_weight text t → SpellsText is_weight text u → t ≡ u }
{
    texts_have_their_tokens();
}

/// The canonical text of an expression of a store, whose labels are over a label set, spells a tree that is built to
/// this expression.
pub fn canonical_texts_are_read<V>()
    ensures { (R : WeightSet V) → SemiringLaws R → (same : V → V → Bool) → IsEqualityTest same
        → (spelled : List ℕ → Option V) (fit : List ℕ → Bool) (canonical : V → List ℕ) → TextLaws R spelled fit canonical
        → (sets : List TapeSet) (class_letters : Mark → List ℕ) (t : Term V) → IsBuilt R same t → Everywhere (HasRootValues R) t → Everywhere (IsRootOver sets) t
        → SpellsBuilt R same spelled class_letters (expression_text canonical t) t }
{
    words_are_over_sets();
}

/// Going over the steps of a tree, with one call of the store for each step on what the last calls made, builds what is
/// built of the tree, or refuses as its building does; and what is built is the built expression. The steps have the
/// labels and classes of the tree in order, and lead to its depth.
pub fn steps_make_expressions<V>()
    ensures made { (R : WeightSet V) (same : V → V → Bool) (value : Mark → V) (class_letters : Mark → List ℕ) (t : Tree) (ts : List (Term V))
        → made_by R same value class_letters ts (steps_of t) ≡ put_behind ts (building R same value class_letters t) }
    ensures built { (R : WeightSet V) (same : V → V → Bool) (value : Mark → V) (class_letters : Mark → List ℕ) (t : Tree) (u : Term V)
        → building R same value class_letters t ≡ Ok u → u ≡ built_of R same (term_of value class_letters t) }
    ensures labels { (t : Tree) → occurrences_in (steps_of t) ≡ occurrences t }
    ensures depth { (t : Tree) → depths_by [] (steps_of t) ≡ depth t ∷ [] }
{}
