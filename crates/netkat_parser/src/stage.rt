//! Where a reader stands between two signs.
//!
//! Layer: texts that are read; private. Called by many modules.
use nk_syntax::Pol;
use nk_values::Field;

/// What stands between a field and its value: `=` or `:=`.
#[derive(Clone, Copy, Debug, PartialEq, Eq)]
pub enum Operator {
    Test,
    Assign,
}

/// What comes next: an operand; `=` or `:=` after a field's name; a value after one of these; or what
/// stands after an operand that was read: a star too, if it is an atom.
#[derive(Drop)]
pub enum Stage {
    Operand,
    Relation(Field),
    Number(Field, Operator),
    Behind(Pol, bool),
}
