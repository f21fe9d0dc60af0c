ghost use Rattle.std.specs.Prelude.{Bool};
ghost use Rattle.vc_model.specs.Lists.{IsEqualityTest};
ghost use Rattle.vc_model.specs.WeightSet.{WeightSet, SemiringLaws};
ghost use Rattle.vc_terms.specs.ItemLaws.{ItemLaws};

use crate::trees::equal_trees_are_told;
use crate::{atoms_read_labels, items_have_their_sums, operations_are_given_by_items};
use std::marker::Model;

/// What contracts see as an expression. The laws of items are cited for items that lead to it.
pub(crate) struct Thing<V> {
    weight: V,
}

impl<V> Model for Thing<V> {
    ghost use Rattle.vc_terms.specs.Terms.{Term, Weight, One};
    ghost use Rattle.vc_terms.specs.Codes.{term_code};

    ghost Value = { Term V };

    ghost coded = { term_code V.code };

    ghost view = { λ t. Weight t.weight One };
}

/// The laws of items that lead to trees.
pub(crate) fn items_have_their_laws<V>()
    ensures { (R : WeightSet V) → SemiringLaws R → (equal : V → V → Bool) → IsEqualityTest equal → ItemLaws R equal }
{
    equal_trees_are_told::<V>();
    items_have_their_sums::<V, Thing<V>, Thing<V>>();
    operations_are_given_by_items::<V, Thing<V>>();
    atoms_read_labels::<V>();
}
