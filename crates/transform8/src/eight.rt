// The transform of 8 by 8 points.
ghost use Rattle.std.specs.Prelude.{◌≡◌, ◌≤ℤ◌, refl};
ghost use Rattle.std.proofs.Common.{lit≤};
ghost use Rattle.laws.specs.Widths.{largest};
ghost use Rattle.laws.specs.Eight.{eight, distance8};
ghost use Rattle.laws.proofs.Eight.{products8, small8, near8};
ghost use Rattle.transform.specs.Passes.{products, passed};
ghost use Rattle.transform.specs.Inner.{Sized};

use crate::forward::column_products;
use crate::inverse::passed_columns;
use crate::tables::{half_of, multiplier_row, pattern, steps, weighed_factors};
use kinds::{Qp, Sort};
use laws::error_sixths;
use transform::{Rescaling, Transform};

#[derive(Clone, Copy)]
pub struct Eight;

impl Transform<8> for Eight {
    ghost transform = { eight };

    ghost limit = { distance8 };

    ghost most = { 1044480 };

    ghost SHIFT = { 22 };

    const SHIFT: u32 = 22;

    fn multipliers(qp: Qp) -> [[u32; 4]; 4] {
        pattern(multiplier_row(qp))
    }

    // A level times 16 v is shifted by QP / 6 - 6 places. To the right it is rounded to the nearest first; a shift to
    // the left goes into the step, so that one line of code does for both.
    fn rescaling(qp: Qp) -> Rescaling {
        let shift = 6u32.saturating_sub(qp.doublings());
        Rescaling {
            steps: pattern(steps(qp)),
            half: half_of(shift),
            shift,
        }
    }

    // This method and the next repeat the trait's clauses: the check cannot give them these itself.
    fn multiply_columns(x: [[i32; 8]; 8]) -> [[i32; 8]; 8]
        requires { Sized 8 2097152 x }
        ensures { result ≡ products eight x }
    {
        column_products(x)
    }

    // Inlined, as its pass is.
    #[inline(always)]
    fn pass_columns(m: [[i16; 8]; 8], bound: i32) -> Option<[[i16; 8]; 8]>
        requires { bound ≤ℤ largest }
        ensures { result ≡ passed eight bound m }
    {
        passed_columns(m, bound)
    }

    // In 98304ths of a sample: the quantiser's error, each class by its weight in a sample, and 172032 for what the multipliers,
    // rescaling, the passes and the last rounding round.
    fn distance(qp: Qp, sort: Sort) -> u32 {
        let sixths = error_sixths(sort) << qp.doublings();
        (sixths * weighed_factors(qp) + 172032) / 98304
    }

    ghost small = { lit≤ tt };

    ghost points = { refl };

    ghost reads = { λ most line. refl };

    ghost shift = { refl };

    ghost shift_small = { lit≤ tt };

    ghost products_small = { products8 };

    ghost coefficients_small = { small8 };

    ghost near = { near8 };
}
