//! A boot along a given order of starts. The order's next module starts; after its last line, the first eligible one does. If the next module may not start,
//! the boot is left there, with the reason.
//!
//! Tested by `example_boot`.

mod against;
mod by_order;
mod followed;
mod images;
mod lacking;
mod laws;

pub use against::Against;
pub use by_order::ByOrder;
pub use followed::Followed;
pub(crate) use images::fault_of;
pub use images::{FollowFault, follow};
pub(crate) use lacking::{Installed, lacking};
pub use laws::one_boot;
