//! Texts under names, as the shelves in memory hold them.

ghost use Rattle.std.specs.Prelude.{◌≡◌, ◌∷◌, ◌++◌, [], OnOk, OnErr};
ghost use Rattle.csp_base.specs.Standard.{position, option_copied};
ghost use Rattle.dl_outside.specs.Prelude.{AnswersTold, has_name, text_of, PutsText};

use crate::shelf::LoadFault;
use csp_base::{Bytes, Made};
use std::alloc::Global;

/// A text and the name that it is held under.
#[derive(Drop)]
pub struct NamedText {
    /// The name.
    pub name: Bytes,
    /// The text.
    pub text: Bytes,
}

/// The place of the first text of this name.
fn place_of(texts: &[NamedText], name: &[u8]) -> Option<usize>
    ensures { result ≡ position (has_name name.now) texts.now }
{
    texts.iter().position(|held| held.name.as_slice() == name)
}

/// The text of this name.
pub(crate) fn find_text<'a>(texts: &'a [NamedText], name: &[u8]) -> Option<&'a [u8]>
    ensures { option_copied result ≡ text_of texts.now name.now }
{
    texts
        .iter()
        .find(|held| held.name.as_slice() == name)
        .map(|held| held.text.as_slice())
}

/// A copy of the text of this name, if it has at most `limit` bytes: what a shelf answers that has no fault.
pub(crate) fn copy_text(
    alloc: Global,
    texts: &[NamedText],
    name: &[u8],
    limit: u32,
) -> Result<Bytes, LoadFault>
    ensures { AnswersTold texts.now name.now limit ⊥ result }
{
    match find_text(texts, name) {
        None => Err(LoadFault::Missing),
        Some(text) if text.len() > limit as usize => Err(LoadFault::TooLong),
        Some(text) => Ok(Bytes::from_slice(alloc, text)?),
    }
}

/// Puts a text under a name, in the place of one that is held under it.
pub(crate) fn put_text(
    alloc: Global,
    texts: &mut Vec<NamedText>,
    name: &[u8],
    text: &[u8],
) -> Made<()>
    ensures ok { OnOk result (PutsText texts.old.items texts.new.items name.now text.now) }
    ensures err { OnErr result (texts.new.items ≡ texts.old.items) }
{
    let text = Bytes::from_slice(alloc, text)?;
    match place_of(texts, name) {
        Some(place) => {
            let held = &mut texts[place];
            held.text = text;
            Ok(())
        }
        None => add_text(alloc, texts, name, text),
    }
}

/// Puts a text under a name, behind those that are held.
fn add_text(alloc: Global, texts: &mut Vec<NamedText>, name: &[u8], text: Bytes) -> Made<()>
    ensures ok { OnOk result (texts.new.items ≡ texts.old.items ++ record { name = name.now; text = text } ∷ []) }
    ensures err { OnErr result (texts.new.items ≡ texts.old.items) }
{
    let name = Bytes::from_slice(alloc, name)?;
    texts.push(NamedText { name, text })?;
    Ok(())
}
