//! The actions of a leaf of a diagram (OpenFlow 1.0.0, 5.2.4), at a port of a switch.
//!
//! Layer: rows and packets. The root of the crate, which table_emitter and table_tests call.
#![tactic(auto)]

mod alone;
mod fault;
mod fields;
mod laws;
mod made;
mod moves;
mod order;
mod pairs;
mod route;
mod settable;
mod shared;
mod staying;
mod view;

pub use fault::{ActionsError, ActionsFault};
pub use laws::{chains_have_no_first_pair, lists_are_one, lists_exclude_faults};
pub use made::actions;
pub use route::Route;
pub use settable::are_settable;
pub use shared::SharedActions;
pub use view::{PortView, SwitchPort, SwitchPorts};
