// A record and all that stands below it: their slots as keys in age order, and the youngest record that is not of them.
#![tactic(auto)]

mod clock;
mod gather;

pub use clock::last_staying;
pub use gather::in_age_order;
