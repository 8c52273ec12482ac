//! A number for each vertex of a digraph.

ghost use Rattle.std.specs.Prelude.{◌≡◌, ◌<◌, ℕ, length, slice_index};

use std::marker::Model;

/// A number for each vertex of a digraph, as `longest_walks` finds them.
pub struct Heights {
    numbers: Vec<u32>,
}

impl Drop for Heights {
    fn drop(self) {
        let Heights { numbers } = self;
    }
}

impl Model for Heights {
    ghost use Rattle.std.specs.Prelude.{List, ℕ};

    ghost Value = { List ℕ };

    ghost view = { λ h. h.numbers.items };
}

impl Heights {
    /// The heights that a vector lists.
    pub fn from_vec(numbers: Vec<u32>) -> Heights
        ensures { result ≡ numbers.items }
    {
        Heights { numbers }
    }

    /// The height of `v`.
    pub fn of(&self, v: u32) -> u32
        requires { v < length self.now }
        ensures { result ≡ slice_index self.now v }
    {
        self.numbers[v as usize]
    }

    /// The heights, one for each vertex in turn.
    pub fn as_slice(&self) -> &[u32]
        ensures { result.now ≡ self.now }
    {
        self.numbers.as_slice()
    }
}
