//! The body of a definition, with values in place of its parameters.

ghost use Rattle.std.specs.Prelude.{slice_get, OnOk};
ghost use Rattle.process_steps.specs.Needed as meant;
ghost use Rattle.term_pool.specs.Pooled.{IsFront};
ghost use Rattle.csp_steps.specs.Prelude.{GivesPlace, Fits};

use crate::evaluated::{Evaluated, body_place};
use csp_atoms::Value;
use csp_base::Stop;
use csp_program::{Body, Program, ValueKind};
use csp_values::EvalResult;
use substitution::Values;
use term_pool::{Pool, ProcId};

/// The place of the body of the definition with the number `def`, which is put into the pool with the values in place of the parameters.
pub(crate) fn enter(
    program: &Program,
    pool: &mut Pool,
    evaluated: &mut Evaluated,
    def: u32,
    values: &[Value],
) -> EvalResult<ProcId>
    requires fits { Fits program.now pool.old evaluated.old }
    ensures process { GivesPlace pool.new result (meant.called (slice_get program.now.defs def) values.now) }
    ensures front { IsFront pool.old pool.new }
    ensures fits { OnOk result (Fits program.now pool.new evaluated.new) }
{
    let Some(found) = program.content().defs.get(def as usize) else {
        return Err(Stop::Told(ValueKind::Kind));
    };
    match &found.body {
        Body::Process(body) => {
            let id = body_place(pool, &mut evaluated.bodies, def, body)?;
            let values = Values::new(pool.alloc(), found.params.as_slice(), values);
            let made = pool.put_all_in(id, &values)?;
            Ok(made)
        }
        _ => Err(Stop::Told(ValueKind::Kind)),
    }
}
