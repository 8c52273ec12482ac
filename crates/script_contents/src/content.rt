//! What a script puts into its program.

ghost use Rattle.std.specs.Prelude.{◌≡◌, ◌≤◌, Some, [], IfOk};
ghost use Rattle.dl_limits.specs.declared.TheConstants.{MOST_BYTES};
ghost use Rattle.name_tables.specs.Firsts.{SameFirsts};
ghost use Rattle.script_names.specs.Contents as meant;
ghost use Rattle.script_names.specs.Names.{declared, none_yet};
ghost use Rattle.script_contents.specs.Plain.{definitions_by, read_by};
ghost use Rattle.script_sizes.specs.BindingTokens.{tokens};
ghost use Rattle.script_sizes.specs.Size.{size};

use crate::channels::channels_and_constants;
use crate::definitions::definitions;
use crate::notes::annotations;
use containers::Items;
use csp_base::Made;
use csp_program::{Content, Def, Net};
use csp_text::{Decl, Tree};
use name_tables::{Meanings, Scope};
use typed_trees::Walk;

/// What the declarations of a script put into its program, whose asserted network is `root`, while its channels have no
/// field sets yet.
pub fn plain_content(meanings: &Meanings<'_>, decls: &[Decl], root: &Tree) -> Made<Content>
    requires names { SameFirsts meanings.now.names.now (declared decls.now) }
    requires root { meant.first_assertion decls.now ≡ Some root.now }
    requires few { size decls.now ≤ MOST_BYTES }
    ensures { IfOk result (λ content. content ≡ meant.plain_content decls.now meanings.now.kinds.now) }
{
    let (channels, consts) = channels_and_constants(meanings, decls)?;
    let (roles, resources) = annotations(meanings.alloc, meanings.names, decls)?;
    let (defs, root) = definitions_and_root(meanings, decls, root)?;
    Ok(Content {
        events: Items::new(meanings.alloc),
        channels,
        consts,
        defs,
        roles,
        resources,
        root,
    })
}

// The definitions of a script, and the network that is asserted.
fn definitions_and_root(
    meanings: &Meanings<'_>,
    decls: &[Decl],
    root: &Tree,
) -> Made<(Items<Def>, Net)>
    requires few { size decls.now ≤ MOST_BYTES }
    requires root { tokens root.now ≤ MOST_BYTES }
    ensures definitions { IfOk result (λ made. made.0 ≡ definitions_by meanings.now none_yet decls.now) }
    ensures root { IfOk result (λ made. made.1 ≡ (read_by meanings.now root.now).net [] 0) }
{
    let defs = definitions(meanings, decls)?;
    let root = root_net(meanings, root)?;
    Ok((defs, root))
}

// The network that is asserted.
fn root_net(meanings: &Meanings<'_>, root: &Tree) -> Made<Net>
    requires { tokens root.now ≤ MOST_BYTES }
    ensures { IfOk result (λ net. net ≡ (read_by meanings.now root.now).net [] 0) }
{
    let mut walk = Walk::new(meanings, Scope::new(meanings.alloc), 0);
    let net = walk.typed_net(root)?;
    Ok(net)
}
