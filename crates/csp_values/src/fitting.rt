//! What a program holds, where the numbers of its events can be computed.

ghost use Rattle.std.specs.Prelude.{◌≡◌};
ghost use Rattle.value_laws.specs.Numbers.{ChannelsFit};

use csp_program::{Channel, Content, Program};
use std::marker::Model;

/// What a program holds; the numbers that channels keep are the places of their first events.
#[derive(Drop)]
pub(crate) struct Fitting<'a> {
    content: &'a Content,
}

impl<'a> Model for Fitting<'a> {
    ghost use Rattle.std.specs.Coded.{codes};
    ghost use Rattle.csp_program.specs.contracts.expressions.Expr as expression;
    ghost use Rattle.csp_program.specs.contracts.networks.Net as network;
    ghost use Rattle.csp_program.specs.contracts.processes.Proc as process;
    ghost use Rattle.csp_program.specs.declared.programs.Content.{Content};
    ghost use Rattle.value_laws.specs.Numbers.{ChannelsFit};

    ghost Value = { Content };

    ghost coded = { Prim.hlevel (codes, expression.the_row.coded, network.the_row.coded, process.the_row.coded) };

    ghost view = { λ f. f.content.now };

    ghost invariant = { λ f. ChannelsFit f.content.now.channels };
}

impl<'a> Fitting<'a> {
    /// What a program holds, also while it is still being put together.
    pub(crate) fn new(content: &'a Content) -> Fitting<'a>
        requires fit { ChannelsFit content.now.channels }
        ensures { result ≡ content.now }
    {
        Fitting { content }
    }

    /// What a program holds.
    pub(crate) fn of(program: &'a Program) -> Fitting<'a>
        ensures { result ≡ program.now }
    {
        Fitting {
            content: program.content(),
        }
    }

    /// The content.
    pub(crate) fn content(&self) -> &'a Content
        ensures { result.now ≡ self.now }
    {
        self.content
    }

    /// The channels.
    pub(crate) fn channels(&self) -> &'a [Channel]
        ensures channels { result.now ≡ self.now.channels }
        ensures fit { ChannelsFit result.now }
    {
        self.content.channels.as_slice()
    }
}
