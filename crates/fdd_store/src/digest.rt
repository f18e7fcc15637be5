//! What a store tells at once of a diagram.
//!
//! Layer: diagrams; private. Called by `looks`, `puts` and `store`.
ghost use Rattle.std.specs.Prelude.{◌≡◌, ◌⊎◌, true};
ghost use Rattle.nk_values.specs.declared.field.Field.{Field};
ghost use Rattle.nk_values.specs.declared.lit.Lit.{Lit};
ghost use Rattle.nk_values.specs.Lits.{lit_field};
ghost use Rattle.nk_values.specs.Members.{IsIn};
ghost use Rattle.fdd_nodes.specs.Trees.{Leaf};
ghost use Rattle.fdd_store.specs.Digests.{IsFieldOf, SetsAre};
ghost use Rattle.fdd_store.specs.Sets.{has};

use crate::fields::Fields;
use crate::id::Id;
use fdd_nodes::Assignments;
use nk_values::Lit;

/// Where the tests of a diagram's first field lead that do not hold, and the fields that it assigns.
#[derive(Clone, Copy)]
pub(crate) struct Digest {
    pub(crate) behind: Id,
    pub(crate) sets: Fields,
}

/// The fields that some copies assign.
pub(crate) fn fields_set(copies: &[Assignments]) -> Fields
    ensures { SetsAre (Leaf copies.now) result }
{
    let mut all = Fields::none();
    for c in copies {
        add_fields(&mut all, c.lits());
    }
    all
}

fn add_fields(all: &mut Fields, lits: &[Lit])
    ensures has { (m : Lit) → IsIn lits.now m → has all.new (lit_field m) ≡ true }
    ensures kept { (m : Lit) → has all.old (lit_field m) ≡ true → has all.new (lit_field m) ≡ true }
    ensures only { (f : Field) → has all.new f ≡ true → (has all.old f ≡ true) ⊎ IsFieldOf lits.now f }
{
    for l in lits {
        all.add(l.field());
    }
}
