//! What the lines so far have declared.
//!
//! Layer: texts that are read; private. Called by many modules.
ghost use Rattle.std.specs.Prelude.{◌≡◌, true, nat_le};
ghost use Rattle.document_text.specs.States.{place_of_kind, has_edge};

use crate::declaration::Declarations;
use topology_model::Draft;

/// What the lines so far have declared. After the topology's lines an edge port is known.
#[derive(Drop)]
pub struct Reader {
    pub draft: Draft,
    pub declared: Declarations,
    pub ghost edge: { nat_le 2 (place_of_kind declared.reached) ≡ true → has_edge draft ≡ true },
}

/// What stands after a line that was taken: another line, or a policy's text.
#[derive(Clone, Copy, Debug, PartialEq, Eq)]
pub enum Continuation {
    Line,
    Opening,
}
