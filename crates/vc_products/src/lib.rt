//! Definitions and laws of products of automata: conjunction, shuffle, join, projection and composition.
#![tactic(auto)]

mod compositions;
mod letter_products;

pub use compositions::{
    compositions_have_one_value, compositions_have_their_series, joins_are_sound,
    joins_have_their_series, projections_have_their_series,
};
pub use letter_products::{conjunctions_have_their_series, shuffles_have_their_series};
