//! What the reader of expressions answers.
ghost use Rattle.std.specs.Prelude.{◌≡◌, ℕ, Bool, true, List, length, Ok, Result};
ghost use Rattle.vc_exprio.specs.Occurring.{letters_over};
ghost use Rattle.vc_exprio.specs.Series.{HasSeriesOf};
ghost use Rattle.vc_exprio.specs.Spelling.{SpellsBuilt};
ghost use Rattle.vc_exprio.specs.TextAnswers.{IsRead, TextRefusal};
ghost use Rattle.vc_label.specs.declared.tape_set.TapeSet.{TapeSet};
ghost use Rattle.vc_model.specs.Lists.{IsEqualityTest};
ghost use Rattle.vc_model.specs.WeightSet.{SemiringLaws};
ghost use Rattle.vc_ring.specs.Texts.{WeightTexts};
ghost use Rattle.vc_terms.specs.Terms.{Term};

use crate::laws::{faults_have_one_place, steps_make_expressions};
use vc_lex::texts_have_their_tokens;
use vc_terms::raw_trees_are_built;

/// A text has at most one answer. So each refusal comes exactly where its cause stands, and no
/// earlier one.
pub fn texts_have_one_answer<V>()
    ensures { (T : WeightTexts V) (single : Bool) (sets : List TapeSet) (text : List ℕ)
        (a b : Result (Term V) (TextRefusal V)) → IsRead T single sets text a → IsRead T single sets text b → a ≡ b }
{
    texts_have_their_tokens();
    faults_have_one_place();
}

/// An expression that is read is the one that the identities make of the tree that the text spells.
pub fn read_trees_are_built<V>()
    ensures { (T : WeightTexts V) (single : Bool) (sets : List TapeSet) (text : List ℕ) (t : Term V)
        → IsRead T single sets text (Ok t) → SpellsBuilt T.set T.same T.spelled (letters_over sets) text t }
{
    steps_make_expressions::<V>();
}

/// An expression that is read has the series of what the text spells: the identities change no
/// coefficient.
pub fn read_expressions_have_their_series<V>()
    ensures { (T : WeightTexts V) → SemiringLaws T.set → IsEqualityTest T.same → (single : Bool) (sets : List TapeSet)
        → (single ≡ true → length sets ≡ 1) → (text : List ℕ) (t : Term V) → IsRead T single sets text (Ok t) → HasSeriesOf T sets text t }
{
    raw_trees_are_built::<V>();
}
