//! Laws of the stores, for those who prove a store or a core. They say what the services and the move keep, where bodies are and what fits, and in `heap` what
//! each service writes of the heap's bytes and what is read from them. Begin with `laws`; each law is a function without a body.
#![tactic(auto)]

pub mod heap;
mod laws;

pub use laws::{
    bodies_are_inside, bodies_stay, entries_are_told, named_are_there, services_keep_facts,
    states_fit, steps_keep_facts, sweeps_go_on,
};
