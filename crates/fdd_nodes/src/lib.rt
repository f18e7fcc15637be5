//! Forwarding decision diagrams (ICFP 2015, section 3): their types, what they answer, and whether they are normal.
//!
//! Layer: diagrams. The root of the crate, which many crates call.
#![tactic(auto)]

mod apart;
mod assignments;
mod cell;
mod covering;
mod fdd;
mod leaf;
mod names;
mod node;
mod normal;
mod path;

pub use apart::parting;
pub use assignments::Assignments;
pub use cell::{Cell, Knowledge};
pub use fdd::Fdd;
pub use leaf::Leaf;
pub use names::{are_few, are_few_behind, is_few_on};
pub use node::Node;
pub use path::Path;
