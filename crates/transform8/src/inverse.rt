// The inverse pass over columns, all of them side by side. It has no exit of its own: its sums cannot wrap in 32 bits, and
// all of them are tested once at its end. A pass and its stages are inlined: as calls, their blocks would go through memory.
ghost use Rattle.std.specs.Prelude.{◌≡◌, ◌≤ℤ◌};
ghost use Rattle.laws.specs.Widths.{largest};
ghost use Rattle.laws.specs.Eight.{eight, sums8, turns8, results8};
ghost use Rattle.transform.specs.Passes.{passed, on_columns};
ghost use Rattle.transform.specs.Inner.{Sized};

use transform::{LARGEST, block_fits, difference, shifted, shortened, sum, widened};

// Every column passed, in its place. `most` is the largest result allowed.
#[inline(always)]
pub fn passed_columns(m: [[i16; 8]; 8], most: i32) -> Option<[[i16; 8]; 8]>
    requires { most ≤ℤ largest }
    ensures { result ≡ passed eight most m }
{
    let e = sums(widened(m));
    let f = turns(e);
    let g = results(f);
    if block_fits(&e, LARGEST) & block_fits(&f, LARGEST) & block_fits(&g, most) {
        Some(shortened(g))
    } else {
        None
    }
}

// e0 .. e7 of each column
#[inline(always)]
fn sums(d: [[i32; 8]; 8]) -> [[i32; 8]; 8]
    requires { Sized 8 32768 d }
    ensures value { result ≡ on_columns 8 sums8 d }
    ensures size { Sized 8 131072 result }
{
    let [d0, d1, d2, d3, d4, d5, d6, d7] = d;
    [
        sum(d0, d4),
        difference(difference(difference(d5, d3), d7), shifted(d7, 1)),
        difference(d0, d4),
        difference(difference(sum(d1, d7), d3), shifted(d3, 1)),
        difference(shifted(d2, 1), d6),
        sum(sum(difference(d7, d1), d5), shifted(d5, 1)),
        sum(d2, shifted(d6, 1)),
        sum(sum(sum(d3, d5), d1), shifted(d1, 1)),
    ]
}

// f0 .. f7 of each column
#[inline(always)]
fn turns(e: [[i32; 8]; 8]) -> [[i32; 8]; 8]
    requires { Sized 8 131072 e }
    ensures value { result ≡ on_columns 8 turns8 e }
    ensures size { Sized 8 262144 result }
{
    let [e0, e1, e2, e3, e4, e5, e6, e7] = e;
    [
        sum(e0, e6),
        sum(e1, shifted(e7, 2)),
        sum(e2, e4),
        sum(e3, shifted(e5, 2)),
        difference(e2, e4),
        difference(shifted(e3, 2), e5),
        difference(e0, e6),
        difference(e7, shifted(e1, 2)),
    ]
}

// the results of each column
#[inline(always)]
fn results(f: [[i32; 8]; 8]) -> [[i32; 8]; 8]
    requires { Sized 8 262144 f }
    ensures { result ≡ on_columns 8 results8 f }
{
    let [f0, f1, f2, f3, f4, f5, f6, f7] = f;
    [
        sum(f0, f7),
        sum(f2, f5),
        sum(f4, f3),
        sum(f6, f1),
        difference(f6, f1),
        difference(f4, f3),
        difference(f2, f5),
        difference(f0, f7),
    ]
}
