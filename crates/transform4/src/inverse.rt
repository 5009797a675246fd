// The inverse pass over columns, all of them side by side. It has no exit of its own: its sums cannot wrap in 32 bits, and
// all of them are tested once at its end. A pass and its stages are inlined: as calls, their blocks would go through memory.
ghost use Rattle.std.specs.Prelude.{◌≡◌, ◌≤ℤ◌};
ghost use Rattle.laws.specs.Widths.{largest};
ghost use Rattle.laws.specs.Four.{four, sums4, results4};
ghost use Rattle.transform.specs.Passes.{passed, on_columns};
ghost use Rattle.transform.specs.Inner.{Sized};

use transform::{LARGEST, block_fits, difference, shifted, shortened, sum, widened};

// Every column passed, in its place. `most` is the largest result allowed.
#[inline(always)]
pub fn passed_columns(m: [[i16; 4]; 4], most: i32) -> Option<[[i16; 4]; 4]>
    requires { most ≤ℤ largest }
    ensures { result ≡ passed four most m }
{
    let e = sums(widened(m));
    let g = results(e);
    if block_fits(&e, LARGEST) & block_fits(&g, most) {
        Some(shortened(g))
    } else {
        None
    }
}

// e0 .. e3 of each column
#[inline(always)]
fn sums(m: [[i32; 4]; 4]) -> [[i32; 4]; 4]
    requires { Sized 4 32768 m }
    ensures value { result ≡ on_columns 4 sums4 m }
    ensures size { Sized 4 65536 result }
{
    let [a, b, c, d] = m;
    [
        sum(a, c),
        difference(a, c),
        difference(shifted(b, 1), d),
        sum(b, shifted(d, 1)),
    ]
}

// the results of each column
#[inline(always)]
fn results(e: [[i32; 4]; 4]) -> [[i32; 4]; 4]
    requires { Sized 4 65536 e }
    ensures { result ≡ on_columns 4 results4 e }
{
    let [e0, e1, e2, e3] = e;
    [
        sum(e0, e3),
        sum(e1, e2),
        difference(e1, e2),
        difference(e0, e3),
    ]
}
