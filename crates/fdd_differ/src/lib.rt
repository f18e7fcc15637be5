//! Packets that tell two diagrams apart (ICFP 2015, section 3), and packets of paths.
//!
//! Layer: diagrams. The root of the crate, which many crates call.
#![tactic(auto)]

mod differ;
mod frame;
mod fresh;
mod names;
mod witness;

pub use differ::difference;
pub use frame::Frame;
pub use fresh::unnamed;
pub use names::{LiteralList, Names, Pair};
pub use witness::{path_packet, path_packet_in};
