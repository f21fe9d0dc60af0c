ghost use Rattle.std.specs.Prelude.{◌≡◌, ◌↔◌, ℕ, nat_eq, true, false, IsTrue, List, [], ◌∷◌, ◌++◌, length, take, drop, None, Some, if◌then◌else◌};
ghost use Rattle.std.specs.Cmp.Lexicographic.{pointwise};
ghost use Rattle.std.specs.Cmp.{IsTotalOrder};
ghost use Rattle.std.specs.declared.cmp.Ordering.TheVariants.{Equal};
ghost use Rattle.vc_label.specs.Order.{word_order};
ghost use Rattle.vc_model.specs.Words.{Word, Tape, is_empty, rest_after};
ghost use Rattle.std.specs.List.Sorted.{IsStrictlyIncreasing};
ghost use Rattle.vc_label.specs.Alphabets.{has_letter, letters_of};
ghost use Rattle.vc_label.specs.Letters.{is_letter, are_letters, is_of_letters};
ghost use Rattle.vc_label.specs.Sets.{IsOverSets, IsSingleWord};
ghost use Rattle.vc_label.specs.declared.tape_set.TapeSet.{TapeSet};
ghost use Rattle.vc_label.specs.declared.alphabet.Alphabet.{Alphabet};
ghost use Rattle.vc_model.specs.Lists.{In};

/// Alphabets are sets of letters: those with the same letters are the same, and the list of
/// the letters is theirs, ascending.
#[tactic(auto, using(crate::proofs::Alphabets::letters_only, crate::proofs::Alphabets::same_alphabets, crate::proofs::Alphabets::listed, crate::proofs::Alphabets::listed_in_order, crate::proofs::Alphabets::listed_each))]
pub fn alphabets_are_sets()
    ensures letters { (s : Alphabet) (x : ℕ) → has_letter s x ≡ true → IsTrue (is_letter x) }
    ensures same { (s t : Alphabet) → ((x : ℕ) → has_letter s x ≡ has_letter t x) → s ≡ t }
    ensures listed { (s : Alphabet) (x : ℕ) → In x (letters_of s) ↔ (has_letter s x ≡ true) }
    ensures ascending { (s : Alphabet) → IsStrictlyIncreasing (letters_of s) }
    ensures each { (s : Alphabet) (front rest : List ℕ) (x : ℕ) → front ++ x ∷ rest ≡ letters_of s → has_letter s x ≡ true }
{}

/// A word over a list of tape sets has a tape for each set, and its bytes are letters. A word
/// of one tape with at most one letter is empty or one letter.
#[tactic(auto, using(crate::proofs::Sets::tapes_over, crate::proofs::Sets::letters_over, crate::proofs::Sets::single_letter))]
pub fn words_are_over_sets()
    ensures tapes { (ss : List TapeSet) (w : Word) → IsOverSets ss w → length w ≡ length ss }
    ensures letters { (ss : List TapeSet) (w : Word) → IsOverSets ss w → IsTrue (is_of_letters w) }
    ensures single { (w : Word) → IsSingleWord w → is_empty w ≡ false → (x : ℕ) × (w ≡ (x ∷ []) ∷ []) }
{}

/// The order of labels is total, and answers `Equal` exactly where the parts are the same.
#[tactic(auto, using(crate::specs::OrderLaws::total, crate::specs::OrderLaws::equal))]
pub fn words_are_ordered()
    ensures total { IsTotalOrder word_order }
    ensures equal { (v w : Word) → (word_order v w ≡ Equal) ↔ (v ≡ w) }
{}

/// What follows a tape in another stands behind it, where the other begins with it; and what stands
/// behind the first letters of a tape is of letters.
#[tactic(auto, using(crate::proofs::Cuts::rest_by_prefix, crate::proofs::Letters::are_letters_drop))]
pub fn tapes_are_cut()
    ensures rest { (a b : Tape) → rest_after a b ≡ (if pointwise nat_eq (take (length a) b) a then Some (drop (length a) b) else None) }
    ensures letters { (n : ℕ) (a : Tape) → IsTrue (are_letters a) → IsTrue (are_letters (drop n a)) }
{}
