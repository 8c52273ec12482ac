//! The text of a whole script.

ghost use Rattle.std.specs.Prelude.{◌≡◌, IfOk};
ghost use Rattle.script_printer.specs.PrintedScript.{script_text};

use crate::lines::put_line;
use csp_base::{Bytes, Made};
use csp_text::Script;
use std::alloc::Global;

/// The printed text of a script: a line for each declaration, in their order.
///
/// It fails for want of memory alone.
#[tactic(auto, using(crate::proofs::Groups::bytes_step, crate::proofs::Groups::bytes_end), unfolding(crate::specs::PrintedScript::script_text))]
pub fn print_script(alloc: Global, script: &Script) -> Made<Bytes>
    ensures { IfOk result (λ text. text ≡ script_text script.now) }
{
    let mut text = Bytes::new(alloc);
    let decls = script.decls.as_slice();
    for decl in decls {
        put_line(&mut text, decl)?;
    }
    Ok(text)
}
