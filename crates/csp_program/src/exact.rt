//! `==` on expressions and on the parts of a prefix is equality.

ghost use Rattle.csp_program.specs.Prelude.{exact_expr, exact_gen, exact_part, exact_field, exact_head};

use crate::expressions::{EventPart, Expr, Gen};
use crate::processes::{Field, Head};
use containers::Exact;

impl Exact for Expr {
    ghost exact = { exact_expr };
}

impl Exact for Gen {
    ghost exact = { exact_gen };
}

impl Exact for EventPart {
    ghost exact = { exact_part };
}

impl Exact for Head {
    ghost exact = { exact_head };
}

impl Exact for Field {
    ghost exact = { exact_field };
}
