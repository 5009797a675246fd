// The transform of 4 by 4 points.
ghost use Rattle.std.specs.Prelude.{◌≡◌, ℕ, ◌/◌, ◌%◌, ◌<◌, ℤ, pos, ◌*ℤ◌, ◌≤ℤ◌, refl};
ghost use Rattle.std.proofs.Common.{lit≤};
ghost use Rattle.laws.specs.Widths.{largest};
ghost use Rattle.laws.specs.Transform.{class_at};
ghost use Rattle.laws.specs.Four.{four, distance4, RecommendedRescaling as Recommended};
ghost use Rattle.laws.proofs.Four.{products4, small4, near4};
ghost use Rattle.transform.specs.Pattern.{stepped};
ghost use Rattle.transform.specs.Passes.{products, passed};
ghost use Rattle.transform.specs.Inner.{Sized};

use crate::forward::column_products;
use crate::inverse::passed_columns;
use crate::tables::{factor_row, multiplier_row, pattern, steps};
use kinds::{Qp, Sort};
use laws::error_sixths;
use transform::{Rescaling, Transform};

#[derive(Clone, Copy)]
pub struct Four;

impl Transform<4> for Four {
    ghost transform = { four };

    ghost limit = { distance4 };

    ghost most = { 9180 };

    ghost SHIFT = { 15 };

    const SHIFT: u32 = 15;

    fn multipliers(qp: Qp) -> [[u32; 4]; 4] {
        pattern(multiplier_row(qp))
    }

    // What a level is multiplied by is what the Recommendation writes with a rounding shift below QP 24.
    fn rescaling(qp: Qp) -> Rescaling
        ensures value { (i j : ℕ) (level : ℤ) → i < 4 → j < 4 → stepped result.steps result.half result.shift i j level ≡ four.rescale (qp / 6) (level *ℤ pos (four.factor (qp % 6) (class_at four i j))) }
        ensures recommended { Recommended }
    {
        Rescaling {
            steps: pattern(steps(qp)),
            half: 0,
            shift: 0,
        }
    }

    // This method and the next repeat the trait's clauses: the check cannot give them these itself.
    fn multiply_columns(x: [[i32; 4]; 4]) -> [[i32; 4]; 4]
        requires { Sized 4 2097152 x }
        ensures { result ≡ products four x }
    {
        column_products(x)
    }

    // Inlined, as its pass is.
    #[inline(always)]
    fn pass_columns(m: [[i16; 4]; 4], bound: i32) -> Option<[[i16; 4]; 4]>
        requires { bound ≤ℤ largest }
        ensures { result ≡ passed four bound m }
    {
        passed_columns(m, bound)
    }

    // In 1536ths of a sample: the quantiser's error, each class by its weight in a sample, and 1344 for what the multipliers,
    // the passes and the last rounding round.
    fn distance(qp: Qp, sort: Sort) -> u32 {
        let [even, odd, mixed] = factor_row(qp);
        let weighed = 16 * even + 9 * odd + 24 * mixed;
        let sixths = error_sixths(sort) << qp.doublings();
        (sixths * weighed + 1344) / 1536
    }

    ghost small = { lit≤ tt };

    ghost points = { refl };

    ghost reads = { λ most line. refl };

    ghost shift = { refl };

    ghost shift_small = { lit≤ tt };

    ghost products_small = { products4 };

    ghost coefficients_small = { small4 };

    ghost near = { near4 };
}
