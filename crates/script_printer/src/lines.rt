//! Lines: one declaration each.

ghost use Rattle.std.specs.Prelude.{◌≡◌, ◌++◌, [], ◌∷◌, OnOk};
ghost use Rattle.csp_text.specs.declared.script.Decl.TheVariants as decl;
ghost use Rattle.csp_text.specs.declared.token.Token.TheVariants as token;
ghost use Rattle.csp_text.specs.declared.token.Symbol.TheVariants.{Comma};
ghost use Rattle.script_printer.specs.TokenText.{line, row, spaced, token_text};
ghost use Rattle.script_printer.specs.PrintedScript.{deadlock_free_tokens, decl_tokens, names_tokens, parameters_tokens, types_tokens};

use crate::tokens::{Written, put_between, put_name, put_symbol};
use crate::trees::{put_operand, put_operands, put_tree};
use containers::Items;
use csp_base::{Bytes, Name};
use csp_text::{Decl, ResourceNames, RolesNames, Symbol, Tree, Word, word_text};

// What ends a line.
const LINE_FEED: u8 = b'\n';

// Adds names with a sign between them.
#[tactic(auto, using(crate::proofs::Written::written_laws))]
fn put_names(text: &mut Bytes, names: &[Name], sign: Symbol) -> Written
    ensures { OnOk result (text.new ≡ text.old ++ spaced (names_tokens (token.Symbol sign) names.now)) }
{
    for (place, name) in names.iter().enumerate() {
        put_between(text, place, sign)?;
        put_name(text, name)?;
    }
    Ok(())
}

// Adds the types of channels behind a colon, or nothing where there are none.
#[tactic(auto, using(crate::proofs::Groups::groups, crate::proofs::Written::written_laws), unfolding(crate::specs::TokenText::spaced))]
fn put_types(text: &mut Bytes, types: &[Tree]) -> Written
    ensures { OnOk result (text.new ≡ text.old ++ spaced (types_tokens types.now)) }
{
    if types.is_empty() {
        return Ok(());
    }
    put_symbol(text, Symbol::Colon)?;
    put_operands(text, types, Symbol::Dot)
}

// Adds parameters in parentheses, or nothing where there are none.
#[tactic(auto, using(crate::proofs::Groups::groups, crate::proofs::Written::written_laws), unfolding(crate::specs::TokenText::spaced))]
fn put_parameters(text: &mut Bytes, names: &[Name]) -> Written
    ensures { OnOk result (text.new ≡ text.old ++ spaced (parameters_tokens names.now)) }
{
    if names.is_empty() {
        return Ok(());
    }
    put_symbol(text, Symbol::OpenParen)?;
    put_names(text, names, Symbol::Comma)?;
    put_symbol(text, Symbol::CloseParen)
}

// Adds the word that a line begins with.
fn begin(text: &mut Bytes, word: Word) -> Written
    ensures { OnOk result (text.new ≡ text.old ++ token_text (token.Word word)) }
{
    text.extend_from_slice(word_text(word))
}

// Adds the end of an assertion.
#[tactic(auto, unfolding(crate::specs::TokenText::spaced))]
fn put_deadlock_free(text: &mut Bytes) -> Written
    ensures { OnOk result (text.new ≡ text.old ++ spaced deadlock_free_tokens) }
{
    text.extend_from_slice(b" : [ deadlock free ]")
}

// Adds the names of a process's requests and acknowledgements, as a client and as a server.
#[tactic(auto, unfolding(crate::specs::TokenText::spaced))]
fn put_sides(text: &mut Bytes, names: &RolesNames) -> Written
    ensures { OnOk result (text.new ≡ text.old
        ++ spaced (token.Name names.now.creq ∷ token.Name names.now.cack ∷ token.Name names.now.sreq ∷ token.Name names.now.sack ∷ [])) }
{
    put_name(text, &names.creq)?;
    put_name(text, &names.cack)?;
    put_name(text, &names.sreq)?;
    put_name(text, &names.sack)
}

// Adds an annotation that gives a process its roles.
#[tactic(auto, unfolding(crate::specs::TokenText::spaced))]
fn put_roles(text: &mut Bytes, names: &RolesNames) -> Written
    ensures { OnOk result (text.new ≡ text.old ++ token_text (token.Roles names.now)) }
{
    text.extend_from_slice(b"--@ roles")?;
    put_name(text, &names.process)?;
    put_sides(text, names)
}

// Adds the names of a resource and of its events.
#[tactic(auto, unfolding(crate::specs::TokenText::spaced))]
fn put_uses(text: &mut Bytes, names: &ResourceNames) -> Written
    ensures { OnOk result (text.new ≡ text.old
        ++ spaced (token.Name names.now.process ∷ token.Name names.now.acquire ∷ token.Name names.now.release ∷ [])) }
{
    put_name(text, &names.process)?;
    put_name(text, &names.acquire)?;
    put_name(text, &names.release)
}

// Adds an annotation that makes a process a resource.
fn put_resource(text: &mut Bytes, names: &ResourceNames) -> Written
    ensures { OnOk result (text.new ≡ text.old ++ token_text (token.Resource names.now)) }
{
    text.extend_from_slice(b"--@ resource")?;
    put_uses(text, names)
}

// Adds the names of channels and their types.
#[tactic(auto, using(crate::proofs::Written::written_laws), unfolding(crate::specs::TokenText::row, crate::specs::TokenText::spaced))]
fn put_channel(text: &mut Bytes, names: &Items<Name>, types: &Items<Tree>) -> Written
    ensures { OnOk result (text.new ≡ text.old ++ row (decl_tokens (decl.Channel names.now types.now))) }
{
    begin(text, Word::Channel)?;
    put_names(text, names.as_slice(), Symbol::Comma)?;
    put_types(text, types.as_slice())
}

// Adds a data type and its constants.
#[tactic(auto, using(crate::proofs::Written::written_laws), unfolding(crate::specs::TokenText::row, crate::specs::TokenText::spaced))]
fn put_datatype(text: &mut Bytes, name: &Name, constants: &Items<Name>) -> Written
    ensures { OnOk result (text.new ≡ text.old ++ row (decl_tokens (decl.Datatype name.now constants.now))) }
{
    begin(text, Word::Datatype)?;
    put_name(text, name)?;
    put_symbol(text, Symbol::Defines)?;
    put_names(text, constants.as_slice(), Symbol::Bar)
}

// Adds a name of a set.
#[tactic(auto, using(crate::proofs::Written::written_laws), unfolding(crate::specs::TokenText::row, crate::specs::TokenText::spaced))]
fn put_nametype(text: &mut Bytes, name: &Name, set: &Tree) -> Written
    ensures { OnOk result (text.new ≡ text.old ++ row (decl_tokens (decl.Nametype name.now set.now))) }
{
    begin(text, Word::Nametype)?;
    put_name(text, name)?;
    put_symbol(text, Symbol::Defines)?;
    put_operand(text, set)
}

// Adds a definition.
#[tactic(auto, using(crate::proofs::Written::written_laws), unfolding(crate::specs::TokenText::row, crate::specs::TokenText::spaced))]
fn put_definition(text: &mut Bytes, name: &Name, parameters: &Items<Name>, body: &Tree) -> Written
    ensures { OnOk result (text.new ≡ text.old ++ row (decl_tokens (decl.Define name.now parameters.now body.now))) }
{
    text.extend_from_slice(name.as_slice())?;
    put_parameters(text, parameters.as_slice())?;
    put_symbol(text, Symbol::Defines)?;
    put_tree(text, body)
}

// Adds an assertion.
#[tactic(auto, using(crate::proofs::Written::written_laws), unfolding(crate::specs::TokenText::row, crate::specs::TokenText::spaced))]
fn put_assertion(text: &mut Bytes, process: &Tree) -> Written
    ensures { OnOk result (text.new ≡ text.old ++ row (decl_tokens (decl.Assert process.now))) }
{
    begin(text, Word::Assert)?;
    put_tree(text, process)?;
    put_deadlock_free(text)
}

// Adds a declaration without the end of its line.
fn put_decl(text: &mut Bytes, decl: &Decl) -> Written
    ensures { OnOk result (text.new ≡ text.old ++ row (decl_tokens decl.now)) }
{
    match decl {
        Decl::Channel(names, types) => put_channel(text, names, types),
        Decl::Datatype(name, constants) => put_datatype(text, name, constants),
        Decl::Nametype(name, set) => put_nametype(text, name, set),
        Decl::Define(name, parameters, body) => put_definition(text, name, parameters, body),
        Decl::Assert(process) => put_assertion(text, process),
        Decl::Roles(names) => put_roles(text, names),
        Decl::Resource(names) => put_resource(text, names),
    }
}

// Adds a declaration as a line.
pub(crate) fn put_line(text: &mut Bytes, decl: &Decl) -> Written
    ensures { OnOk result (text.new ≡ text.old ++ line (decl_tokens decl.now)) }
{
    put_decl(text, decl)?;
    text.push(LINE_FEED)
}
