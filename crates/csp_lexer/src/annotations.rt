//! Annotations, which are line comments.

ghost use Rattle.std.specs.Prelude.{◌≡◌, map, IfOk, IfSome};
ghost use Rattle.csp_base.specs.Standard.{option_copied, list_all};
ghost use Rattle.csp_lexer.specs.Prelude.{line_piece, marked_piece, resource, roles, words_of, Passed, is_name};

use crate::classes::is_space;
use crate::scan::{Left, pass_one};
use crate::tokens::Tokens;
use crate::words::is_name;
use containers::Boxed;
use csp_base::{Made, Name, Place};
use csp_text::{ResourceNames, RolesNames, Token};
use std::alloc::{AllocError, Global};

// The words of the line.
fn words_of(alloc: Global, line: &[u8]) -> Result<Vec<&[u8]>, AllocError>
    ensures { IfOk result (λ words. map (λ word. word.now) words.items ≡ words_of line.now) }
{
    line.split(|b| is_space(*b))
        .filter(|word| !word.is_empty())
        .collect(alloc)
}

// Whether all words are names.
fn are_names(words: &[&[u8]]) -> bool
    ensures { result ≡ list_all is_name (map (λ word. word.now) words.now) }
{
    words.iter().all(|word| is_name(word))
}

// The annotation of five names, or `None` where the words are anything else.
#[tactic(auto, unfolding(crate::specs::AnnotationPieces::roles))]
fn roles(alloc: Global, words: &[&[u8]]) -> Made<Option<Token>>
    ensures { IfOk result (λ found. found ≡ roles (map (λ word. word.now) words.now)) }
{
    match words {
        [process, creq, cack, sreq, sack] if are_names(words) => {
            let names = RolesNames {
                process: Name::from_slice(alloc, process)?,
                creq: Name::from_slice(alloc, creq)?,
                cack: Name::from_slice(alloc, cack)?,
                sreq: Name::from_slice(alloc, sreq)?,
                sack: Name::from_slice(alloc, sack)?,
            };
            Boxed::new(alloc, names).map(|names| Some(Token::Roles(names)))
        }
        _ => Ok(None),
    }
}

// The annotation of three names, or `None` where the words are anything else.
#[tactic(auto, unfolding(crate::specs::AnnotationPieces::resource))]
fn resource(alloc: Global, words: &[&[u8]]) -> Made<Option<Token>>
    ensures { IfOk result (λ found. found ≡ resource (map (λ word. word.now) words.now)) }
{
    match words {
        [process, acquire, release] if are_names(words) => {
            let names = ResourceNames {
                process: Name::from_slice(alloc, process)?,
                acquire: Name::from_slice(alloc, acquire)?,
                release: Name::from_slice(alloc, release)?,
            };
            Boxed::new(alloc, names).map(|names| Some(Token::Resource(names)))
        }
        _ => Ok(None),
    }
}

// Passes a line comment that begins with `--@` and these words, which may be an annotation.
#[tactic(auto, unfolding(crate::specs::AnnotationPieces::marked_piece))]
fn pass_marked<'a>(words: &[&[u8]], rest: &'a [u8], at: Place, found: &mut Tokens) -> Left<'a>
    ensures passed { IfOk result (λ left.
        Passed (marked_piece at (map (λ word. word.now) words.now) rest.now) found.old found.new (option_copied left)) }
    ensures same { IfOk result (λ left. IfSome left (λ left. left.now ≡ rest.now)) }
{
    let Some((word, names)) = words.split_first() else {
        return Ok(Some(rest));
    };
    if *word == b"roles".as_slice() {
        let token = roles(found.alloc(), names)?;
        return pass_one(token, at, rest, found);
    }
    if *word == b"resource".as_slice() {
        let token = resource(found.alloc(), names)?;
        return pass_one(token, at, rest, found);
    }
    Ok(Some(rest))
}

// Passes a line comment, which may be an annotation.
#[tactic(auto, using(std::proofs::lemmas::List::take_rest), unfolding(crate::specs::AnnotationPieces::line_piece))]
pub(crate) fn pass_line<'a>(line: &[u8], rest: &'a [u8], at: Place, found: &mut Tokens) -> Left<'a>
    ensures passed { IfOk result (λ left.
        Passed (line_piece at line.now rest.now) found.old found.new (option_copied left)) }
    ensures same { IfOk result (λ left. IfSome left (λ left. left.now ≡ rest.now)) }
{
    if !line.starts_with(b"--@") {
        return Ok(Some(rest));
    }
    let words = words_of(found.alloc(), &line[3..])?;
    let left = pass_marked(words.as_slice(), rest, at, found)?;
    Ok(left)
}
