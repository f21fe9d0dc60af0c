ghost use Rattle.std.specs.Prelude.{◌≡◌, Bool, true, false, List, ◌∷◌, [], IsTrue, ◌↔◌};
ghost use Rattle.std.specs.List.{flat_map};
ghost use Rattle.vc_model.specs.Lists.{IsEqualityTest};
ghost use Rattle.vc_terms.specs.Terms.{Term, terms_of, IsBasic, letter_count, bound_of};
ghost use Rattle.vc_model.specs.WeightSet.{WeightSet};
ghost use Rattle.vc_terms.specs.Forms.{IsBuilt, IsBuiltRoot, EverywhereIn, AreMembers, AreFactors};
ghost use Rattle.vc_terms.specs.Identities.{members_of, any_zero, all_factors, sum_of, product_of, weight_of, both_of, shuffle_of, star_of};
ghost use Rattle.vc_terms.specs.Same.{same_term};
ghost use Rattle.vc_terms.specs.Trees.{is_basic};

/// Of built trees each operation builds a built tree; the members of a sum and the factors of a product are such.
pub fn operations_build_trees<V>()
    ensures members { (R : WeightSet V) (equal : V → V → Bool) (ts : List (Term V))
        → EverywhereIn (IsBuiltRoot R equal) (terms_of ts) → AreMembers (terms_of (flat_map members_of ts)) }
    ensures factors { (R : WeightSet V) (equal : V → V → Bool) (ts : List (Term V)) → any_zero ts ≡ false
        → EverywhereIn (IsBuiltRoot R equal) (terms_of ts) → AreFactors (terms_of (all_factors ts)) }
    ensures sum { (R : WeightSet V) (equal : V → V → Bool) (ts : List (Term V))
        → EverywhereIn (IsBuiltRoot R equal) (terms_of ts) → IsBuilt R equal (sum_of ts) }
    ensures product { (R : WeightSet V) (equal : V → V → Bool) (ts : List (Term V))
        → EverywhereIn (IsBuiltRoot R equal) (terms_of ts) → IsBuilt R equal (product_of R equal ts) }
    ensures weight { (R : WeightSet V) (equal : V → V → Bool) (k : V) (t : Term V)
        → IsBuilt R equal t → IsBuilt R equal (weight_of R equal k t) }
    ensures both { (R : WeightSet V) (equal : V → V → Bool) (t u : Term V)
        → IsBuilt R equal t → IsBuilt R equal u → IsBuilt R equal (both_of t u) }
    ensures shuffle { (R : WeightSet V) (equal : V → V → Bool) (t u : Term V)
        → IsBuilt R equal t → IsBuilt R equal u → IsBuilt R equal (shuffle_of t u) }
    ensures star { (R : WeightSet V) (equal : V → V → Bool) (t : Term V)
        → IsBuilt R equal t → IsBuilt R equal (star_of t) }
{}

/// The test of equality of trees tells whether they are equal.
pub fn equal_trees_are_told<V>()
    ensures { (equal : V → V → Bool) → IsEqualityTest equal → IsEqualityTest (same_term equal) }
{}

/// The test tells which trees are basic; the bound of a basic tree is the number of its label occurrences.
pub fn basic_trees_are_told<V>()
    ensures test { (t : Term V) → IsTrue (is_basic t) ↔ IsBasic t }
    ensures bound { (t : Term V) → IsBasic t → bound_of t ≡ letter_count t }
{}
