ghost use Rattle.vc_atoms.specs.Labels.{IsOneLetter};
ghost use Rattle.vc_atoms.specs.declared.letters.Letter.{Letter};

use crate::letters::Letters;
use vc_label::LabelSet;

/// A label of `Letters` has one part, which is one letter.
pub fn letters_have_one_letter()
    ensures { (l : Letter) → IsOneLetter (⟦<Letters as LabelSet>⟧.parts l) }
{}
