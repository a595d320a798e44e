//! Tests of the choice of the next module, and of the answers to a driver's calls, over catalogues of volumes that are written as texts. Begin with `drivers`.
#![tactic(auto)]

#[cfg(test)]
mod calls;
#[cfg(test)]
mod catalogues;
#[cfg(test)]
mod drivers;
#[cfg(test)]
mod place_sets;
#[cfg(test)]
mod volumes;
