//! Whether each component of a network conforms to the one in its place.

ghost use Rattle.std.specs.Prelude.{◌≡◌, ◌≤◌, ◌<◌, IfErr, OnOk, length};
ghost use Rattle.dl_limits.specs.declared.TheConstants.{MOST_COMPONENTS};
ghost use Rattle.conformance.specs.Told.{Fails};
ghost use Rattle.csp_tables.specs.Prelude.{HaveForm, leaves, part_at};
ghost use Rattle.network_layout.specs.Triple.{alphabets};
ghost use Rattle.csp_base.specs.Stops.{Tells};
ghost use Rattle.comparison.specs.Conforming.{ComponentsConform, ConformBefore, FailsToConform, HaveSameEvents, failure};

use conformance::{ConformFault, ConformingParts};
use csp_base::Stop;
use csp_tables::Part;
use network_stages::Parted;
use report::Shortfall;
use std::alloc::Global;

// That each component conforms to the one in its place; else the first that does not is told, with a trace.
pub(crate) fn check_components(
    alloc: Global,
    network: &Parted<'_>,
    specified: &Parted<'_>,
) -> Result<(), Stop<Shortfall>>
    requires { alphabets (leaves network.now.network.tree) ≡ alphabets (leaves specified.now.network.tree) }
    ensures conform { OnOk result (ComponentsConform network.now.network specified.now.network) }
    ensures told { IfErr result (Tells (FailsToConform network.now.network specified.now.network)) }
{
    let _seats = network.network().seats();
    match check_parts(alloc, network.parts(), specified.parts()) {
        Ok(()) => Ok(()),
        Err((place, stop)) => Err(failure(place, stop)),
    }
}

// That each part conforms to the one in its place; else the first that does not, and why.
fn check_parts(
    alloc: Global,
    parts: &[Part],
    specified: &[Part],
) -> Result<(), (u32, Stop<ConformFault>)>
    requires few { length parts.now ≤ MOST_COMPONENTS }
    requires as_many { length parts.now ≡ length specified.now }
    requires form { HaveForm parts.now }
    requires specified_form { HaveForm specified.now }
    requires events { HaveSameEvents parts.now specified.now }
    ensures conform { OnOk result (ConformBefore parts.now specified.now (length parts.now)) }
    ensures within { IfErr result (λ f. f.0 < length parts.now) }
    ensures earlier { IfErr result (λ f. ConformBefore parts.now specified.now f.0) }
    ensures told { IfErr result (λ f. Tells (Fails (part_at parts.now f.0).table
        (part_at specified.now f.0).table) f.1) }
{
    let mut conforming = ConformingParts::new(alloc);
    for place in 0..parts.len() {
        if let Err(stop) = conforming.check(alloc, &parts[place], &specified[place]) {
            return Err((place as u32, stop));
        }
    }
    Ok(())
}

// How it is told that this component does not conform to its specification.
fn failure(component: u32, stop: Stop<ConformFault>) -> Stop<Shortfall>
    ensures { result ≡ failure component stop }
{
    match stop {
        Stop::NoMemory => Stop::NoMemory,
        Stop::Told(ConformFault::Outside { trace }) => {
            Stop::Told(Shortfall::Outside { component, trace })
        }
        Stop::Told(ConformFault::Refuses { trace }) => {
            Stop::Told(Shortfall::Refuses { component, trace })
        }
    }
}
