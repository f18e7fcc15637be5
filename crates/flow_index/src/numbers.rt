//! The numbers of the groups of an index.
//!
//! Layer: rows and packets; private. Called by `index`.
ghost use Rattle.std.specs.Prelude.{◌≡◌, ℕ, Some, None, cond, OnOk, OnErr};
ghost use Rattle.flow_index.specs.Numbers.{same_corner, number_at, IsRight};

use std::alloc::{AllocError, Global};
use std::collections::HashMap;

/// A port and a VLAN number, and the number of their group.
#[derive(Clone, Copy)]
pub(crate) struct NumberedCorner {
    pub(crate) corner: (u16, u16),
    pub(crate) number: usize,
}

/// Which group has the rows for a port and a VLAN number. What a change found last is kept beside the map, since most
/// changes come one after another for one port and one VLAN number.
#[derive(Drop)]
pub(crate) struct GroupNumbers {
    pub(crate) map: HashMap<(u16, u16), usize>,
    pub(crate) last: Option<NumberedCorner>,
}

impl GroupNumbers {
    /// Those of no group.
    pub(crate) fn new(alloc: Global) -> GroupNumbers
        ensures none { (corner : ℕ × ℕ) → number_at result corner ≡ None }
        ensures right { IsRight result }
    {
        GroupNumbers {
            map: HashMap::new(alloc),
            last: None,
        }
    }

    /// The number of a group, if it is there.
    #[inline(always)]
    pub(crate) fn get(&self, corner: (u16, u16)) -> Option<usize>
        requires { IsRight self.now }
        ensures { result ≡ number_at self.now corner }
    {
        match self.last {
            Some(last) if last.corner == corner => Some(last.number),
            _ => self.map.get(&corner).copied(),
        }
    }

    /// The same, for a change.
    pub(crate) fn find(&mut self, corner: (u16, u16)) -> Option<usize>
        requires { IsRight self.old }
        ensures number { result ≡ number_at self.old corner }
        ensures same { self.new.map ≡ self.old.map }
        ensures right { IsRight self.new }
    {
        let number = self.get(corner)?;
        self.last = Some(NumberedCorner { corner, number });
        Some(number)
    }

    /// A group gets a number.
    pub(crate) fn insert(&mut self, corner: (u16, u16), number: usize) -> Result<(), AllocError>
        ensures ok { OnOk result ((q : ℕ × ℕ) →
            number_at self.new q ≡ cond (same_corner corner q) (Some number) (number_at self.old q)) }
        ensures err { OnErr result ((q : ℕ × ℕ) → number_at self.new q ≡ number_at self.old q) }
        ensures right { IsRight self.new }
    {
        self.last = None;
        self.map.insert(corner, number)?;
        Ok(())
    }
}
