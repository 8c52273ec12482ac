//! The kinds of parts that nodes have.

ghost use Rattle.std.specs.Prelude.{map};
ghost use Rattle.csp_base.specs.Lists.{greatest, total};
ghost use Rattle.csp_program.specs.Prelude.{expr_depth, field_depth, gen_depth, pair_depth, any_of, before, expr_free, gen_binding, head_free, nowhere, pair_free, under, expr_size, field_size, gen_size, pair_size, expr_with, fields_with, gens_with, head_with};
ghost use Rattle.substitution.proofs.Stays.{expr_stays, exprs_stay, fields_stay, gens_stay, head_stays};

use crate::measure::{Measure, leaf};
use crate::measured::{of_expr, of_exprs, of_fields, of_gens, of_head, of_pairs};
use crate::place::ProcId;
use crate::put::Put;
use crate::store::Part;
use containers::Items;
use csp_base::Made;
use csp_program::copies::{copy_expr, copy_exprs, copy_fields, copy_gens, copy_head, copy_pairs};
use csp_program::{EventPart, Expr, Field, Gen, Head};
use std::alloc::Global;
use substitution::{Values, put_expr, put_exprs, put_fields, put_gens, put_head};

impl Part for Head {
    ghost depth = { λ head. 0 };

    ghost size = { λ head. 0 };

    ghost free = { head_free };

    fn copy(&self, alloc: Global) -> Made<Head> {
        copy_head(alloc, self)
    }

    fn measure(&self) -> Measure {
        of_head(self)
    }
}

impl Put for Head {
    ghost with = { head_with };

    ghost stays = { head_stays };

    fn put(&self, values: &Values<'_>) -> Made<Head> {
        put_head(self, values)
    }
}

impl Part for Items<Field> {
    ghost depth = { λ fields. greatest (map field_depth fields) };

    ghost size = { λ fields. total (map field_size fields) };

    ghost free = { λ fields. before fields nowhere };

    fn copy(&self, alloc: Global) -> Made<Items<Field>> {
        copy_fields(alloc, self.as_slice())
    }

    fn measure(&self) -> Measure {
        of_fields(self.as_slice())
    }
}

impl Put for Items<Field> {
    ghost with = { fields_with };

    ghost stays = { fields_stay };

    fn put(&self, values: &Values<'_>) -> Made<Items<Field>> {
        put_fields(self.as_slice(), values)
    }
}

impl Part for Expr {
    ghost depth = { expr_depth };

    ghost size = { expr_size };

    ghost free = { expr_free };

    fn copy(&self, alloc: Global) -> Made<Expr> {
        copy_expr(alloc, self)
    }

    fn measure(&self) -> Measure {
        of_expr(self)
    }
}

impl Put for Expr {
    ghost with = { expr_with };

    ghost stays = { expr_stays };

    fn put(&self, values: &Values<'_>) -> Made<Expr> {
        put_expr(self, values)
    }
}

impl Part for Items<Expr> {
    ghost depth = { λ exprs. greatest (map expr_depth exprs) };

    ghost size = { λ exprs. total (map expr_size exprs) };

    ghost free = { λ exprs. any_of (map expr_free exprs) };

    fn copy(&self, alloc: Global) -> Made<Items<Expr>> {
        copy_exprs(alloc, self.as_slice())
    }

    fn measure(&self) -> Measure {
        of_exprs(self.as_slice())
    }
}

impl Put for Items<Expr> {
    ghost with = { λ given. map (expr_with given) };

    ghost stays = { exprs_stay };

    fn put(&self, values: &Values<'_>) -> Made<Items<Expr>> {
        put_exprs(self.as_slice(), values)
    }
}

impl Part for Items<(EventPart, EventPart)> {
    ghost depth = { λ pairs. greatest (map pair_depth pairs) };

    ghost size = { λ pairs. total (map pair_size pairs) };

    ghost free = { λ pairs. any_of (map pair_free pairs) };

    fn copy(&self, alloc: Global) -> Made<Items<(EventPart, EventPart)>> {
        copy_pairs(alloc, self.as_slice())
    }

    fn measure(&self) -> Measure {
        of_pairs(self.as_slice())
    }
}

impl Part for Items<Gen> {
    ghost depth = { λ gens. greatest (map gen_depth gens) };

    ghost size = { λ gens. total (map gen_size gens) };

    ghost free = { λ gens. under (map gen_binding gens) nowhere };

    fn copy(&self, alloc: Global) -> Made<Items<Gen>> {
        copy_gens(alloc, self.as_slice())
    }

    fn measure(&self) -> Measure {
        of_gens(self.as_slice())
    }
}

impl Put for Items<Gen> {
    ghost with = { gens_with };

    ghost stays = { gens_stay };

    fn put(&self, values: &Values<'_>) -> Made<Items<Gen>> {
        put_gens(self.as_slice(), values)
    }
}

impl Part for Items<ProcId> {
    ghost depth = { λ ids. 0 };

    ghost size = { λ ids. 0 };

    ghost free = { λ ids. nowhere };

    fn copy(&self, alloc: Global) -> Made<Items<ProcId>> {
        let copy = Items::from_slice(alloc, self.as_slice())?;
        Ok(copy)
    }

    fn measure(&self) -> Measure {
        leaf()
    }
}
