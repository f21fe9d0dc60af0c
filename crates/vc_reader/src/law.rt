ghost use Rattle.std.specs.Prelude.{◌≡◌, ℕ, List, Result};
ghost use Rattle.vc_aut.specs.Labelled.{Labelled};
ghost use Rattle.vc_context.specs.declared.context.Weights.{Weights};
ghost use Rattle.vc_label.specs.declared.tape_set.TapeSet.{TapeSet};
ghost use Rattle.vc_lines.specs.Heads.{HeadLine};
ghost use Rattle.vc_lines.specs.Names.{AreNames};
ghost use Rattle.vc_model.specs.Automata.{Automaton};
ghost use Rattle.vc_model.specs.Lists.{IsEqualityTest};
ghost use Rattle.vc_model.specs.WeightSet.{RangeLaws, SemiringLaws};
ghost use Rattle.vc_reader.specs.Additions.{HasManyTriples, IsUnfitAddition};
ghost use Rattle.vc_reader.specs.Answers.{IsBuilt, IsPastLimit, IsReadAfter, IsUnfit};
ghost use Rattle.vc_reader.specs.Readings.{IsSameReading};
ghost use Rattle.vc_reader.specs.Spelling.{Spells, SpellsAutomaton, lines_in};
ghost use Rattle.vc_reader.specs.declared.fault.DautFault.{DautFault};
ghost use Rattle.vc_ring.specs.Texts.{TextLaws, WeightTexts};
ghost use Rattle.vc_ring.specs.declared.faults.MakeFault.TheVariants.{Overflow as Unfit};
ghost use Rattle.vc_ring.specs.declared.faults.Measure.TheVariants.{Transitions};
ghost use Rattle.vc_ring.specs.declared.faults.Overflow.TheVariants.{Add};

use vc_aut::{drafts_are_sums, transitions_are_added};
use vc_context::contexts_have_texts;
use vc_label::words_are_ordered;
use vc_lex::texts_have_their_tokens;
use vc_lines::context_lines_have_one_text;

/// The automaton that the reader builds is the one that the lines after the head spell.
pub fn built_automata_are_spelled<V>()
    ensures { (T : WeightTexts V) → SemiringLaws T.set → IsEqualityTest T.same
        → (sets : List TapeSet) (h : HeadLine) (a : Labelled V) → IsBuilt T sets h a → Spells T sets h.after a.automaton }
{
    drafts_are_sums::<V>();
}

/// A text spells at most one automaton, over one list of label sets and with the name of one weight set. So do the lines
/// after a context line. The names of their states have one order.
pub fn texts_spell_one_automaton<V>()
    ensures after { (T : WeightTexts V) → SemiringLaws T.set → (sets : List TapeSet) (texts : List (List ℕ))
        (a b : Automaton V) → Spells T sets texts a → Spells T sets texts b → a ≡ b }
    ensures whole { (T : WeightTexts V) → SemiringLaws T.set → (text : List ℕ) (sets others : List TapeSet)
        (weights other : Weights) (a b : Automaton V)
        → SpellsAutomaton T text sets weights a → SpellsAutomaton T text others other b
        → (sets ≡ others) × (weights ≡ other) × (a ≡ b) }
    ensures names { (T : WeightTexts V) (texts names others : List (List ℕ)) → AreNames (lines_in T.spelled texts) names
        → AreNames (lines_in T.spelled texts) others → names ≡ others }
{
    words_are_ordered();
    texts_have_their_tokens();
    contexts_have_texts();
    context_lines_have_one_text();
}

/// What the reader may answer on one text: want of memory apart, one automaton, one line that is outside the grammar, one
/// label that is not in the sets; or else a number or a sum that does not fit, or a limit that is passed.
pub fn readings_exclude_each_other<V>()
    ensures { (T : WeightTexts V) (sets : List TapeSet) (h : HeadLine) (x y : Result (Labelled V) (DautFault V))
        → IsReadAfter T sets h x → IsReadAfter T sets h y → IsSameReading x y }
{
    texts_have_their_tokens();
}

/// A sum that is refused is an addition that a line of the file makes: to the sum of what the file gives before it to the
/// same state as an initial or final weight, or to the same source, label and target. Transitions are refused where they
/// have too many sources, labels and targets. Where an automaton is built, there is neither.
pub fn refusals_are_additions<V>()
    ensures unfit { (T : WeightTexts V) → SemiringLaws T.set → (sets : List TapeSet) (h : HeadLine) (line : ℕ) (v w : V)
        → IsUnfit T sets h line (Unfit (Add v w)) → IsUnfitAddition T sets h line v w }
    ensures limit { (T : WeightTexts V) → SemiringLaws T.set → (sets : List TapeSet) (h : HeadLine) (most : ℕ)
        → IsPastLimit T sets h (record { what = Transitions; most = most })
        → (most ≡ 4000000) × HasManyTriples T sets h }
    ensures no_unfit { (T : WeightTexts V) → SemiringLaws T.set → RangeLaws T.set
        → TextLaws T.set T.spelled T.numbers_fit T.canonical → (sets : List TapeSet) (h : HeadLine) (a : Labelled V)
        (line : ℕ) (v w : V) → IsBuilt T sets h a → IsUnfitAddition T sets h line v w → ⊥ }
    ensures no_limit { (T : WeightTexts V) → SemiringLaws T.set → (sets : List TapeSet) (h : HeadLine) (a : Labelled V)
        → IsBuilt T sets h a → HasManyTriples T sets h → ⊥ }
{
    texts_have_their_tokens();
    words_are_ordered();
    drafts_are_sums::<V>();
    transitions_are_added::<V>();
}
