//! Standard automata of weighted expressions (Sakarovitch, Elements of Automata Theory): one state for the start and
//! one for each position.
#![tactic(auto)]

mod automaton;
mod build;
mod chain;
mod conjoined;
mod emit;
mod joining;
mod laws;
mod lists;
mod looped;
mod make;
mod moves;
mod positions;
mod product;
mod put;
mod shape;
mod shapes;
mod shuffled;
mod states;
mod weights;

pub use automaton::standard;
pub use laws::{
    standard_automata_have_their_series, structures_have_their_size,
    structures_name_each_triple_once,
};
