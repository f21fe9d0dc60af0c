ghost use Rattle.vc_model.specs.WeightSet.{WeightSet, SemiringLaws};
ghost use Rattle.vc_terms.specs.SeriesLaws.{SeriesLaws};

use crate::{
    constants_of_terms, members_of_terms, products_of_series, shuffles_of_series, stars_of_series,
};

/// The laws of series that the laws of trees stand on.
pub(crate) fn series_have_their_laws<V>()
    ensures { (R : WeightSet V) → SemiringLaws R → SeriesLaws R }
{
    products_of_series::<V>();
    stars_of_series::<V>();
    shuffles_of_series::<V>();
    members_of_terms::<V>();
    constants_of_terms::<V>();
}
