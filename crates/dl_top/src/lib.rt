//! The top call: words in, a report out, and an exit status; with the theorem about the answer 0.
//!
//! Promises speak of texts and reports (`Promised`), and one record ties them to a call (`Kept`). What a load gave the shelf states itself (`gives`):
//! of a text in memory that text, of a file what its reads gave. Where a shelf reports its texts, that is the text under the name (`Handed`). A front of a
//! report is sent where the sink fails or memory runs out, never otherwise. Status 5 is merged with nothing. A trial is the reply of `check` with a line
//! before it; it loads nothing.
#![tactic(auto)]

ghost use Rattle.dl_top.specs.Prelude.{HandedTextsAreHeld};

pub mod judge;
pub mod load;
pub mod reply;
pub mod send;
pub mod sure;
pub mod top;

pub use command_words::Words;
use dl_outside::Shelf;
pub use sure::dl_sure;
pub use top::dl_main;

/// Where a shelf reports its texts, the texts that it handed over in a call are those that it held before the call, each under its name, and no others.
pub fn handed_texts_are_held<S: Shelf>()
    ensures { HandedTextsAreHeld S.texts S.gives }
{}
