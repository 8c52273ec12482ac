//! What the lexer makes of a text.

ghost use Rattle.std.specs.Prelude.{◌≡◌, ◌++◌, [], ◌∷◌, length, IfOk, OnOk};
ghost use Rattle.csp_lexer.specs.Placed.{place_at, tokens_of};

use containers::Items;
use csp_base::{Made, Place};
use csp_text::Token;
use std::alloc::Global;
use std::marker::Model;
use std::mem;

/// The tokens of a text in order, each with the place where it begins, and the place of the text's end.
#[derive(Drop)]
pub struct Tokens {
    alloc: Global,
    tokens: Items<Token>,
    places: Items<Place>,
    end: Place,
}

impl Model for Tokens {
    ghost use Rattle.std.specs.Prelude.{◌≡◌, length};
    ghost use Rattle.std.specs.List.{zip};
    ghost use Rattle.csp_lexer.specs.Placed.{PlacedTokens};

    ghost Value = { PlacedTokens };

    ghost view = { λ t. record { placed = zip t.tokens t.places; end = t.end } };

    ghost invariant = { λ t. length t.places ≡ length t.tokens };
}

impl Tokens {
    // The tokens of the empty text.
    pub(crate) fn new(alloc: Global, at: Place) -> Tokens
        ensures placed { result.placed ≡ [] }
        ensures end { result.end ≡ at }
    {
        Tokens {
            alloc,
            tokens: Items::new(alloc),
            places: Items::new(alloc),
            end: at,
        }
    }

    // Where memory for tokens comes from.
    pub(crate) fn alloc(&self) -> Global {
        self.alloc
    }

    // Adds a token that begins at this place.
    pub(crate) fn push(&mut self, token: Token, at: Place) -> Made<()>
        ensures { OnOk result (self.new.placed ≡ self.old.placed ++ (token, at) ∷ []) }
    {
        self.tokens.push(token)?;
        if let Err(fault) = self.places.push(at) {
            drop(self.tokens.pop());
            return Err(fault);
        }
        Ok(())
    }

    // Adds the tokens of the text behind.
    pub(crate) fn append(&mut self, behind: Tokens) -> Made<()>
        ensures { OnOk result (self.new.placed ≡ self.old.placed ++ behind.placed) }
    {
        let empty = Tokens::new(self.alloc, behind.end);
        let before = mem::replace(self, empty);
        *self = before.join(behind)?;
        Ok(())
    }

    // These tokens and then those of the text behind.
    fn join(self, behind: Tokens) -> Made<Tokens>
        ensures { IfOk result (λ all. all.placed ≡ self.placed ++ behind.placed) }
    {
        let alloc = self.alloc;
        let tokens = join_items(self.tokens, behind.tokens)?;
        let places = join_items(self.places, behind.places)?;
        Ok(Tokens {
            alloc,
            tokens,
            places,
            end: behind.end,
        })
    }

    // The same tokens of a text that ends at this place.
    pub(crate) fn end_at(self, at: Place) -> Tokens
        ensures { result ≡ record { placed = self.placed; end = at } }
    {
        Tokens {
            alloc: self.alloc,
            tokens: self.tokens,
            places: self.places,
            end: at,
        }
    }

    /// The tokens.
    pub fn as_slice(&self) -> &[Token]
        ensures { result.now ≡ tokens_of self.now.placed }
    {
        self.tokens.as_slice()
    }

    /// The place of the token with this number, counted from 0; that of the text's end where there is no such token.
    pub fn place(&self, number: usize) -> Place
        ensures { result ≡ place_at self.now number }
    {
        match self.places.get(number) {
            Some(place) => *place,
            None => self.end,
        }
    }
}

// The items and then more of them.
fn join_items<T: Drop>(items: Items<T>, more: Items<T>) -> Made<Items<T>>
    ensures { IfOk result (λ all. all ≡ items ++ more) }
{
    let mut all = items.into_vec();
    let mut more = more.into_vec();
    all.append(&mut more)?;
    Ok(Items::from_vec(all))
}
