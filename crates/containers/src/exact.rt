//! Types whose `==` is exact.

ghost use Rattle.std.specs.Prelude.{◌≡◌, true};
ghost use Rattle.std.specs.Cmp.{first_so, second_so};
ghost use Rattle.std.proofs.lemmas.Bool.{eqb-true};
ghost use Rattle.containers.specs.Exact.{IsExact-pointwise};

use crate::{Boxed, Items};

/// Types whose `==` is exact: two values that it finds equal are one value to every contract.
pub trait Exact: Eq {
    ghost exact: { (x y : Self) → Self.eq x y ≡ true → x ≡ y };
}

impl Exact for u8 {
    ghost exact = { eqb-true };
}

impl Exact for u32 {
    ghost exact = { eqb-true };
}

impl Exact for u64 {
    ghost exact = { eqb-true };
}

impl Exact for usize {
    ghost exact = { eqb-true };
}

impl<T: Exact> Exact for Boxed<T> {
    ghost exact = { T.exact };
}

impl<T: Exact> Exact for Items<T> {
    ghost exact = { IsExact-pointwise T.eq T.exact };
}

impl<A: Exact, B: Exact> Exact for (A, B) {
    ghost exact = { λ x y h i. record { 0 = A.exact x.0 y.0 (first_so (A.eq x.0 y.0) (B.eq x.1 y.1) h) i; 1 = B.exact x.1 y.1 (second_so (A.eq x.0 y.0) (B.eq x.1 y.1) h) i } };
}
