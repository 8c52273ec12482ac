//! Why a walk to a verdict halts, and to what it comes.

ghost use Rattle.std.specs.Prelude.{◌≡◌, IfOk};
ghost use Rattle.report.specs.Stops.{IsEnd, IsVerdict, refuse};

use crate::answer::{Done, Refusal, Shortfall, Side, Verdict};
use csp_base::{Made, NoMemory, Stop};

/// Why a walk over networks halts before its end.
#[derive(Drop)]
pub enum Halt {
    /// Memory ran out.
    NoMemory,
    /// It has come to this verdict.
    Told(Verdict),
}

impl From<NoMemory> for Halt {
    ghost use Rattle.std.specs.Prelude.{◌≡◌};
    ghost use Rattle.report.specs.declared.stop.Halt.TheVariants as halt;

    ghost from_gives = { λ _ h. h ≡ halt.NoMemory };

    fn from(_error: NoMemory) -> Halt {
        Halt::NoMemory
    }
}

impl From<Stop<Refusal>> for Halt {
    ghost use Rattle.std.specs.Prelude.{◌≡◌};
    ghost use Rattle.report.specs.Stops.{refuse};
    ghost use Rattle.report.specs.declared.answer.Side.TheVariants as side;

    // That of the script.
    ghost from_gives = { λ s t. t ≡ refuse side.Script s };

    fn from(stop: Stop<Refusal>) -> Halt {
        refuse(Side::Script, stop)
    }
}

impl From<Stop<Shortfall>> for Halt {
    ghost use Rattle.std.specs.Prelude.{◌≡◌};
    ghost use Rattle.report.specs.Stops.{unproved};

    ghost from_gives = { λ s t. t ≡ unproved s };

    fn from(stop: Stop<Shortfall>) -> Halt {
        match stop {
            Stop::NoMemory => Halt::NoMemory,
            Stop::Told(shortfall) => Halt::Told(Verdict::NotProved(shortfall)),
        }
    }
}

/// Why a walk over networks halts where the program of this side is refused. A `?` tells the refusal of the script.
pub fn refuse(side: Side, stop: Stop<Refusal>) -> Halt
    ensures { result ≡ refuse side stop }
{
    match stop {
        Stop::NoMemory => Halt::NoMemory,
        Stop::Told(refusal) => Halt::Told(Verdict::Refused(side, refusal)),
    }
}

/// The verdict to which a walk over networks comes, unless memory runs out.
pub fn conclude(walk: Result<Done, Halt>) -> Made<Verdict>
    ensures { IfOk result (IsVerdict walk) }
{
    match walk {
        Ok(done) => Ok(Verdict::Done(done)),
        Err(Halt::Told(verdict)) => Ok(verdict),
        Err(Halt::NoMemory) => Err(NoMemory),
    }
}

/// What a walk ends with, at its end or before, unless memory runs out.
pub fn settle<A>(walk: Result<A, Stop<A>>) -> Made<A>
    ensures { IfOk result (IsEnd walk) }
{
    match walk {
        Ok(end) => Ok(end),
        Err(Stop::Told(end)) => Ok(end),
        Err(Stop::NoMemory) => Err(NoMemory),
    }
}
