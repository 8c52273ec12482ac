//! The places of the trees of declarations.

ghost use Rattle.std.specs.Prelude.{◌≡◌, slice_get};
ghost use Rattle.script_names.specs.Told as meant;

use name_tables::kind_at;
use script_names::{Class, Kind, Need, Place};

// The place of a whole tree.
fn whole_place(need: Need, network: bool) -> Place
    ensures { result ≡ record { need = need; network = network; level = 1 } }
{
    Place {
        need,
        network,
        level: 1,
    }
}

fn need_of(class: Class) -> Need
    ensures { result ≡ meant.need_of class }
{
    match class {
        Class::Data => Need::Data,
        Class::Process => Need::Process,
        Class::Unknown => Need::Either,
    }
}

/// The place of the body of a definition.
pub(crate) fn body_place(kinds: &[Kind], d: usize) -> Place
    ensures place { result ≡ meant.body_place (slice_get kinds.now d) }
    ensures level { result.level ≡ 1 }
{
    let kind = kind_at(kinds, d);
    whole_place(need_of(kind.class), kind.network)
}

/// The place of a type of a channel and of the body of a nametype.
pub(crate) fn data_place() -> Place
    ensures { result ≡ meant.data_place }
{
    whole_place(Need::Data, false)
}

/// The place of the asserted call.
pub(crate) fn root_place() -> Place
    ensures { result ≡ meant.root_place }
{
    whole_place(Need::Process, true)
}
