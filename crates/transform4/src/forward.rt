// The forward pass, by sums and differences.
ghost use Rattle.std.specs.Prelude.{◌≡◌};
ghost use Rattle.laws.specs.Blocks.{cells, block};
ghost use Rattle.laws.specs.Transform.{half_product};
ghost use Rattle.laws.specs.Four.{four};
ghost use Rattle.transform.specs.Passes.{products};
ghost use Rattle.transform.specs.Inner.{Sized};

use transform::{difference, sum, transposed};

// C times each column, as a row.
pub fn column_products(x: [[i32; 4]; 4]) -> [[i32; 4]; 4]
    requires { Sized 4 2097152 x }
    ensures { result ≡ products four x }
{
    transposed(forward_columns(x))
}

// C times each column, in its place: sij and dij are the sum and the difference of the inputs i and j. That the numbers are
// small stands in both contracts: a type round a block would be taken off at once.
fn forward_columns(x: [[i32; 4]; 4]) -> [[i32; 4]; 4]
    requires { Sized 4 2097152 x }
    ensures { result ≡ block 4 (half_product four (cells x)) }
{
    let [x0, x1, x2, x3] = x;
    let s03 = sum(x0, x3);
    let s12 = sum(x1, x2);
    let d03 = difference(x0, x3);
    let d12 = difference(x1, x2);
    [
        sum(s03, s12),
        sum(sum(d03, d03), d12),
        difference(s03, s12),
        difference(d03, sum(d12, d12)),
    ]
}
