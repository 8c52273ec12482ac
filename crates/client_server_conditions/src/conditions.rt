//! Whether a component keeps S3, S4 or S5 where it stands.

ghost use Rattle.std.specs.Prelude.{◌≡◌};
ghost use Rattle.client_server_conditions.specs.Conditions.{is_asked_of, condition_of};

use design_rules::Condition;

/// Three conditions on the runs of a component: S3, S4 and S5.
#[derive(Clone, Copy)]
pub enum RunCondition {
    /// Requests and acknowledgements take turns on each link.
    Turns,
    /// Requests are taken all together, and none while a link to a client is open.
    Service,
    /// While a link to a server is open, each of its acknowledgements is taken.
    Answers,
}

impl RunCondition {
    // Which of the rule's conditions it is.
    pub(crate) fn condition(self) -> Condition
        ensures { result ≡ condition_of self }
    {
        match self {
            RunCondition::Turns => Condition::Turns,
            RunCondition::Service => Condition::Service,
            RunCondition::Answers => Condition::Answers,
        }
    }

    // Whether the condition asks anything of an end of a link.
    pub(crate) fn is_asked_of(self, asks: bool, acknowledged: bool) -> bool
        ensures { result ≡ is_asked_of self asks acknowledged }
    {
        match self {
            RunCondition::Turns => true,
            RunCondition::Service => !asks && acknowledged,
            RunCondition::Answers => asks && acknowledged,
        }
    }
}
