//! How rules, sides, kinds of fault and sites are written.

ghost use Rattle.std.specs.Prelude.{◌≡◌, ◌++◌, OnOk};
ghost use Rattle.report.specs.Prelude.{kind_text, site_text, side_line, side_name, rule_text};

use crate::answer::{Side, Site};
use crate::lines::Part::Number;
use crate::lines::{Written, push_text};
use csp_base::Bytes;
use csp_program::ValueKind;
use csp_tables::Rule;

/// The name of a rule, on a command line and in reports.
pub fn rule_name(rule: Rule) -> &'static [u8]
    ensures { result.now ≡ rule_text rule }
{
    match rule {
        Rule::Cyclic => b"cyclic",
        Rule::ClientServer => b"client-server",
        Rule::Resource => b"resource",
    }
}

// How a side is named in reports.
pub(crate) fn side_name(side: Side) -> &'static [u8]
    ensures { result.now ≡ side_name side }
{
    match side {
        Side::Script => b"script",
        Side::Specification => b"specification",
    }
}

// The line that names the side of a refusal; of a script there is none.
pub(crate) fn side_line(side: Side) -> &'static [u8]
    ensures { result.now ≡ side_line side }
{
    match side {
        Side::Script => b"",
        Side::Specification => b"in the specification\n",
    }
}

// The name of a kind of fault.
pub(crate) fn kind_name(kind: ValueKind) -> &'static [u8]
    ensures { result.now ≡ kind_text kind }
{
    match kind {
        ValueKind::Range => b"Range",
        ValueKind::Division => b"Division",
        ValueKind::OutsideChannel => b"OutsideChannel",
        ValueKind::Kind => b"Kind",
        ValueKind::EmptyChoice => b"EmptyChoice",
        ValueKind::SetLimit => b"SetLimit",
    }
}

// Adds where a value is needed.
pub(crate) fn push_site(report: &mut Bytes, site: Site) -> Written
    ensures { OnOk result (report.new ≡ report.old ++ site_text site) }
{
    match site {
        Site::Network => report.extend_from_slice(b" in the network"),
        Site::Component(i) => push_text(report, &[Number(b" in component ", i)]),
        Site::Annotation(i) => push_text(report, &[Number(b" in the annotation of component ", i)]),
        Site::HiddenSet => report.extend_from_slice(b" in the hidden set"),
    }
}
