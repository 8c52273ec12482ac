//! What the checker asks of the place that scripts are loaded from.

ghost use Rattle.std.specs.Prelude.{◌≡◌, ℕ, IfOk, List, Option};
ghost use Rattle.dl_outside.specs.Prelude.{Counts, NeverFall, LoadAnswers, NamedText};

use csp_base::{Bytes, NoMemory};
use std::alloc::Global;

/// Why a text wasn't loaded.
#[derive(Clone, Copy, Debug, PartialEq, Eq, Drop, thiserror::Error)]
pub enum LoadFault {
    /// There is no text of that name.
    #[error("there is no text of that name")]
    Missing,
    /// The text has more bytes than were asked for.
    #[error("the text is too long")]
    TooLong,
    /// The text could not be looked for or read.
    #[error("the text could not be read")]
    Failed,
    /// Memory ran out.
    #[error("out of memory")]
    NoMemory,
}

impl From<NoMemory> for LoadFault {
    ghost use Rattle.std.specs.Prelude.{◌≡◌};
    ghost use Rattle.dl_outside.specs.declared.shelf.LoadFault.TheVariants.{NoMemory as OutOfMemory};

    ghost from_gives = { λ _ fault. fault ≡ OutOfMemory };

    fn from(_error: NoMemory) -> Self {
        LoadFault::NoMemory
    }
}

/// A place that holds texts under names.
pub trait Shelf {
    // The texts that it holds, where it tells them: of one name the first.
    ghost texts: { Self → Option (List NamedText) };

    // How many faults it has had, up to the last value of a `u64`, and how many bytes its loads have taken. A shelf that
    // tells its texts may leave these bytes at 0.
    ghost counts: { Self → Counts };

    // What a load gave: with the shelf before it and after it, of this name, this text.
    ghost gives: { Self → Self → List ℕ → List ℕ → Type 0 };

    /// The text of this name, if it has at most `limit` bytes. The fault is `TooLong` where it has more, `Missing` where there is none, and `Failed`
    /// where it could not be looked for or read.
    fn load(&mut self, alloc: Global, name: &[u8], limit: u32) -> Result<Bytes, LoadFault>
        ensures given { IfOk result (gives self.old self.new name.now) }
        ensures answer { LoadAnswers (texts self.old) (counts self.old) (counts self.new) name.now limit result }
        ensures texts_stay { texts self.new ≡ texts self.old }
        ensures never_fall { NeverFall (counts self.old) (counts self.new) };
}
