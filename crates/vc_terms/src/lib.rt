//! Definitions and laws of weighted expressions: their series, the items that give these, and equations of series.
#![tactic(auto)]

mod derived;
mod expansions;
mod identities;
mod items;
mod series;
mod term_items;
mod term_series;
mod terms;
mod trees;

pub use derived::{
    accessible_terms_are_derived, derived_terms_are_trees, factors_make_their_product,
    term_automata_have_their_terms,
};
pub use expansions::{derived_terms_are_bounded, expansions_give_coefficients};
pub use identities::{identities_keep_series, raw_trees_are_built};
pub use items::{items_have_their_sums, operations_are_given_by_items};
pub use series::{
    atoms_read_labels, products_of_series, series_by_letter, shuffles_of_series, stars_of_series,
    stars_solve_equations, unknowns_leave_systems,
};
pub use terms::{constants_of_terms, members_of_terms, tapes_of_terms};
pub use trees::{basic_trees_are_told, equal_trees_are_told, operations_build_trees};
