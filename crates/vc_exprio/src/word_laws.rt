//! What texts of words mean.
ghost use Rattle.std.specs.Prelude.{◌≡◌, ◌≢◌, ℕ, List, [], IsTrue};
ghost use Rattle.vc_exprio.specs.Words.{SpellsWord, word_text};
ghost use Rattle.vc_label.specs.Letters.{is_of_letters};
ghost use Rattle.vc_model.specs.Words.{Word};

/// A text spells at most one word.
pub fn texts_spell_one_word()
    ensures { (text : List ℕ) (v w : Word) → SpellsWord text v → SpellsWord text w → v ≡ w }
{}

/// The canonical text of a word spells it.
pub fn word_texts_are_read()
    ensures { (w : Word) → w ≢ [] → IsTrue (is_of_letters w) → SpellsWord (word_text w) w }
{}
