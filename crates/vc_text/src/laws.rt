ghost use Rattle.std.specs.Prelude.{◌≡◌, ℕ, List};
ghost use Rattle.vc_text.specs.Classes.{ClassItem, items_of, symbols};
ghost use Rattle.vc_text.specs.Items.{SpellsItems};

/// The items of a class are those that its text spells.
#[tactic(auto, using(crate::proofs::Spelled::items_read))]
pub fn items_are_read()
    ensures { (items : List ClassItem) (text : List ℕ) → SpellsItems text items → items_of (symbols text) ≡ items }
{}
