ghost use Rattle.std.specs.Prelude.{◌≡◌, ◌≤◌, ◌↔◌, ℕ, List, length, map, Some};
ghost use Rattle.vc_context.specs.Canonical.{context_text};
ghost use Rattle.vc_context.specs.Reading.{tape_of, context_at};
ghost use Rattle.vc_context.specs.Sets.{tapes_of};
ghost use Rattle.vc_context.specs.Spelling.{SpellsContext};
ghost use Rattle.vc_context.specs.declared.context.AnyLabels.{AnyLabels};
ghost use Rattle.vc_context.specs.declared.context.AnyLabels.TheVariants as labels;
ghost use Rattle.vc_context.specs.declared.context.Weights.{Weights};
ghost use Rattle.vc_atoms.specs.declared.letters.Letters.{Letters};
ghost use Rattle.vc_atoms.specs.declared.nullable.Nullable.{Nullable};
ghost use Rattle.vc_atoms.specs.declared.words.Words.{Words};
ghost use Rattle.vc_label.specs.declared.tape_set.TapeSet.{TapeSet};
ghost use Rattle.vc_tuple.specs.declared.tuple.Tuple.{Tuple};

use vc_atoms::{Letters, Nullable, Words};
use vc_label::{LabelSet, alphabets_are_sets};
use vc_tuple::Tuple;

/// The tapes of a label set are those of its own type.
pub fn labels_have_tapes()
    ensures letters { (l : Letters) → tapes_of (labels.Letters l) ≡ ⟦<Letters as LabelSet>⟧.sets l }
    ensures nullable { (l : Nullable) → tapes_of (labels.Nullable l) ≡ ⟦<Nullable as LabelSet>⟧.sets l }
    ensures words { (l : Words) → tapes_of (labels.Words l) ≡ ⟦<Words as LabelSet>⟧.sets l }
    ensures tuple { (l : Tuple) → tapes_of (labels.Tuple l) ≡ ⟦<Tuple as LabelSet>⟧.sets l }
    ensures some { (l : AnyLabels) → 1 ≤ length (tapes_of l) }
    ensures few { (l : AnyLabels) → length (tapes_of l) ≤ 4 }
{}

/// What the reader answers on a text is what the text spells.
pub fn texts_are_read()
    ensures sound { (text : List ℕ) (sets : List TapeSet) (weights : Weights)
        → context_at text ≡ Some (map tape_of sets, weights) → SpellsContext text sets weights }
    ensures complete { (text : List ℕ) (sets : List TapeSet) (weights : Weights)
        → SpellsContext text sets weights → context_at text ≡ Some (map tape_of sets, weights) }
{
    alphabets_are_sets();
}

/// A text spells at most one context, and the canonical text of a context spells it.
pub fn contexts_have_texts()
    ensures one { (text : List ℕ) (sets others : List TapeSet) (weights other : Weights)
        → SpellsContext text sets weights → SpellsContext text others other → (sets ≡ others) × (weights ≡ other) }
    ensures few { (text : List ℕ) (sets : List TapeSet) (weights : Weights)
        → SpellsContext text sets weights → (1 ≤ length sets) × (length sets ≤ 4) }
    ensures written { (sets : List TapeSet) (weights : Weights) → 1 ≤ length sets → length sets ≤ 4
        → SpellsContext (context_text sets weights) sets weights }
{
    alphabets_are_sets();
}
