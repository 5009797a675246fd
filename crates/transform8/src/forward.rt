// The forward pass. Each row of C is its own mirror image, or minus it, so that half of its products do on sums or
// differences of opposite inputs.
ghost use Rattle.std.specs.Prelude.{◌≡◌, ◌<◌};
ghost use Rattle.laws.specs.Blocks.{at, from, column as column_of, dot as dot_of};
ghost use Rattle.laws.specs.Eight.{eight};
ghost use Rattle.transform.specs.Passes.{products};
ghost use Rattle.transform.specs.Inner.{Sized};
ghost use Rattle.transform8.specs.Inner.{Sized8, Sized4, mirror_sums, mirror_differences, forward_line};

use std::array;
use transform::column;

// C times each column, as a row.
pub fn column_products(x: [[i32; 8]; 8]) -> [[i32; 8]; 8]
    requires { Sized 8 2097152 x }
    ensures { result ≡ products eight x }
{
    array::from_fn(
        |j|
            requires { (j < 8) × Sized8 2097152 (column_of 8 x j) }
            ensures { result ≡ forward_line (column_of 8 x j) }
        { forward_line(column(&x, j)) },
    )
}

// C times a line, by the left half of C. That the numbers are small stands here and in its parts: a type round
// eight numbers would be taken off at once.
fn forward_line(x: [i32; 8]) -> [i32; 8]
    requires { Sized8 2097152 x }
    ensures { result ≡ forward_line x }
{
    let (s, d) = mirrored(x);
    [
        dot(s, [8, 8, 8, 8]),
        dot(d, [12, 10, 6, 3]),
        dot(s, [8, 4, -4, -8]),
        dot(d, [10, -3, -12, -6]),
        dot(s, [8, -8, -8, 8]),
        dot(d, [6, -12, 3, 10]),
        dot(s, [4, -8, 8, -4]),
        dot(d, [3, -6, 10, -12]),
    ]
}

// The sums of opposite inputs, and their differences.
fn mirrored(x: [i32; 8]) -> ([i32; 4], [i32; 4])
    requires { Sized8 2097152 x }
    ensures sums { result.0 ≡ mirror_sums x }
    ensures differences { result.1 ≡ mirror_differences x }
    ensures sums_small { Sized4 4194304 result.0 }
    ensures differences_small { Sized4 4194304 result.1 }
{
    let [x0, x1, x2, x3, x4, x5, x6, x7] = x;
    let sums = [x0 + x7, x1 + x6, x2 + x5, x3 + x4];
    let differences = [x0 - x7, x1 - x6, x2 - x5, x3 - x4];
    (sums, differences)
}

fn dot(x: [i32; 4], c: [i32; 4]) -> i32
    requires numbers { Sized4 4194304 x }
    requires coefficients { Sized4 12 c }
    ensures { result ≡ dot_of (from (at c) 0 4) (from (at x) 0 4) }
{
    let [x0, x1, x2, x3] = x;
    let [c0, c1, c2, c3] = c;
    c0 * x0 + (c1 * x1 + (c2 * x2 + c3 * x3))
}
