//! Tests of HOBs, and of what the stores answer about the heap, its lists and the move, byte by byte. Each call of a store is made over both. Begin with
//! `store` and `refusals`.
#![tactic(auto)]

#[cfg(test)]
mod acts;
#[cfg(test)]
mod board;
#[cfg(test)]
mod calls;
#[cfg(test)]
mod guid_indexes;
#[cfg(test)]
mod hobs;
#[cfg(test)]
mod readings;
#[cfg(test)]
mod refusals;
#[cfg(test)]
mod scene;
#[cfg(test)]
mod steps;
#[cfg(test)]
mod store;
#[cfg(test)]
mod trial;
