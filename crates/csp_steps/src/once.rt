//! Each step once, where it first stands.

ghost use Rattle.std.specs.Prelude.{◌≡◌, IfOk, OnOk};
ghost use Rattle.csp_steps.specs.Prelude.{AreAdded, AreFirsts};

use crate::step::StepTo;
use containers::{Items, Numbering};
use csp_base::Made;
use std::alloc::Global;

/// Adds steps to others, each of which stands once.
pub(crate) fn add_each(numbered: &mut Numbering<StepTo>, steps: &[StepTo]) -> Made<()>
    ensures { OnOk result (AreAdded numbered.old steps.now numbered.new) }
{
    for step in steps {
        numbered.number(*step)?;
    }
    Ok(())
}

/// The steps that are numbered.
pub(crate) fn numbered_steps(alloc: Global, numbered: &Numbering<StepTo>) -> Made<Items<StepTo>>
    ensures { IfOk result (λ made. made ≡ numbered.now) }
{
    Items::from_slice(alloc, numbered.as_slice())
}

/// The steps of the list, each once, where it first stands.
pub(crate) fn drop_repeats(alloc: Global, steps: Items<StepTo>) -> Made<Items<StepTo>>
    ensures { IfOk result (λ made. AreFirsts steps made) }
{
    if steps.len() < 2 {
        return Ok(steps);
    }
    let mut numbered = Numbering::new(alloc);
    add_each(&mut numbered, steps.as_slice())?;
    numbered_steps(alloc, &numbered)
}
