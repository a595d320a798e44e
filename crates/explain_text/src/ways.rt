//! What would make a dependency expression hold: the GUIDs that have to come, and those that have to go.
mod change;
mod change_laws;
mod cheapest;
mod literal;
mod side;
mod sides;
mod way;

pub use change::{Change, change_for};
pub use change_laws::{a_way_is_enough, each_guid_once, would_makes_it_hold};
