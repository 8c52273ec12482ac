//! What was read from the front of tokens.

ghost use Rattle.std.specs.Prelude.{◌≡◌};
ghost use Rattle.tree_reading.specs.Prelude.{at_least, last_item, left_operand, number, of_process, tighter, Gives, sure};

use crate::deep::{Deep, DeepTree};
use crate::fault::{OrNoText, no_text};
use containers::Items;
use csp_text::{Token, Tree};

/// What was read, and what is left of the tokens.
#[derive(Drop)]
pub struct Read<'t, T> {
    /// What was read.
    pub part: T,
    /// The tokens behind it.
    pub rest: &'t [Token],
}

impl<'t> Read<'t, DeepTree> {
    /// The same, bound like this.
    pub fn bind(self, binding: Binding) -> BoundRead<'t, DeepTree>
        ensures { result ≡ record { binding = binding; part = self.entry.part; rest = self.entry.rest } }
    {
        BoundRead {
            binding,
            part: self.part,
            rest: self.rest,
        }
    }
}

/// The same with how tightly it is bound.
#[derive(Drop)]
pub struct BoundRead<'t, T> {
    /// How tightly it is bound.
    pub binding: Binding,
    /// What was read.
    pub part: T,
    /// The tokens behind it.
    pub rest: &'t [Token],
}

/// What a reading answers.
pub type Reading<'t, T> = OrNoText<Read<'t, T>>;

/// The same with how tightly it is bound.
pub type BoundReading<'t, T> = OrNoText<BoundRead<'t, T>>;

/// How tightly a tree is bound: what may stand beside it with no parentheses.
#[derive(Clone, Copy)]
pub enum Binding {
    /// A dotted event.
    Dotted,
    /// A process that reaches as far to the right as it can.
    Open,
    /// A process that something may follow.
    Closed,
    /// `or` between operands.
    Disjunction,
    /// `and` between operands.
    Conjunction,
    /// `not` before an operand.
    Complement,
    /// A comparison.
    Comparison,
    /// `+` or `-` between operands.
    Sum,
    /// `*`, `/` or `%` between operands.
    Product,
    /// `-` before an operand.
    Negative,
    /// A renaming.
    Renaming,
    /// What needs no parentheses anywhere.
    Atom,
}

impl Binding {
    // The place in the order from the loosest to the tightest.
    fn tightness(self) -> u32
        ensures { result ≡ number self }
    {
        match self {
            Binding::Dotted => 0,
            Binding::Open => 1,
            Binding::Closed => 2,
            Binding::Disjunction => 11,
            Binding::Conjunction => 12,
            Binding::Complement => 13,
            Binding::Comparison => 14,
            Binding::Sum => 15,
            Binding::Product => 16,
            Binding::Negative => 17,
            Binding::Renaming => 18,
            Binding::Atom => 19,
        }
    }

    /// Whether this is bound as tightly as the other, or tighter.
    pub fn is_at_least(self, least: Binding) -> bool
        ensures { result ≡ at_least least self }
    {
        least.tightness() <= self.tightness()
    }

    /// Stops the reading in front of the tokens unless this is bound as tightly as the other.
    pub fn expect(self, least: Binding, tokens: &[Token]) -> OrNoText<()>
        ensures { Gives result (λ _. tt) (sure (at_least least self)) }
    {
        if self.is_at_least(least) {
            Ok(())
        } else {
            Err(no_text(tokens))
        }
    }

    /// The next tighter binding to that of an operator.
    pub fn tighter(self) -> Binding
        ensures { result ≡ tighter self }
    {
        match self {
            Binding::Dotted => Binding::Open,
            Binding::Open => Binding::Closed,
            Binding::Closed => Binding::Disjunction,
            Binding::Disjunction => Binding::Conjunction,
            Binding::Conjunction => Binding::Complement,
            Binding::Complement => Binding::Comparison,
            Binding::Comparison => Binding::Sum,
            Binding::Sum => Binding::Product,
            Binding::Product => Binding::Negative,
            Binding::Negative => Binding::Renaming,
            Binding::Renaming | Binding::Atom => Binding::Atom,
        }
    }

    /// How tightly the left operand of an operator has to be bound: comparisons do not associate.
    pub fn left_operand(self) -> Binding
        ensures { result ≡ left_operand self }
    {
        match self {
            Binding::Comparison => Binding::Sum,
            other => other,
        }
    }

    /// How tightly a process is bound that ends with a process bound like this.
    pub fn of_process(self) -> Binding
        ensures { result ≡ of_process self }
    {
        if self.is_at_least(Binding::Closed) {
            Binding::Closed
        } else {
            Binding::Open
        }
    }
}

/// The binding of a list of items that ends with one bound like this, behind these.
pub fn last_item(before: &Deep<Items<Tree>>, binding: Binding) -> Binding
    ensures { result ≡ last_item before.now binding }
{
    if before.get().is_empty() {
        binding
    } else {
        Binding::Dotted
    }
}
