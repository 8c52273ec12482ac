//! Steps of the processes of a pool.

ghost use Rattle.csp_steps.specs.ExactStep.{exact_step};

use containers::Exact;
use process_steps::Label;
use term_pool::ProcId;

/// A step of a process of a pool.
#[derive(Clone, Copy, PartialEq, Eq, Hash)]
pub struct StepTo {
    /// What is seen of it.
    pub label: Label,
    /// The place of the process after it.
    pub to: ProcId,
}

impl Exact for StepTo {
    ghost exact = { exact_step };
}
