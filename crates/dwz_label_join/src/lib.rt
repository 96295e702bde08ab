//! Labels that tell marks by names of their own, told by common ones.
//!
//! Workers that append marks at once have names of their own. `join` gives these numbers among common names, and `put_renumbered` tells a
//! label by them.
#![tactic(auto)]

mod joined;
mod renumber;

pub use joined::join;
pub use renumber::put_renumbered;
