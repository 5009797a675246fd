// The tables, by QP mod 6, and the classes of their entries: places with both indices even, both odd, and the rest.
ghost use Rattle.std.specs.Prelude.{◌≡◌, ◌*◌, ◌/◌, ◌%◌, ◌^◌, [], slice_index, slice_index_or};
ghost use Rattle.laws.specs.Blocks.{from};
ghost use Rattle.laws.specs.Four.{v4, multipliers4, factors4};
ghost use Rattle.transform4.specs.Inner.{pattern, Below3};

use kinds::Qp;

const MULTIPLIERS: [[u32; 3]; 6] = [
    [13107, 5243, 8066],
    [11916, 4660, 7490],
    [10082, 4194, 6554],
    [9362, 3647, 5825],
    [8192, 3355, 5243],
    [7282, 2893, 4559],
];

const FACTORS: [[u32; 3]; 6] = [
    [10, 16, 13],
    [11, 18, 14],
    [13, 20, 16],
    [14, 23, 18],
    [16, 25, 20],
    [18, 29, 23],
];

// One line over each table, in both transforms: a common one would have to be handed the table and its definition.
pub fn multiplier_row(qp: Qp) -> [u32; 3]
    ensures value { result ≡ slice_index_or multipliers4 (qp % 6) [] }
    ensures small { Below3 13107 result }
{
    MULTIPLIERS[qp.row()]
}

pub fn factor_row(qp: Qp) -> [u32; 3]
    ensures value { result ≡ slice_index_or factors4 (qp % 6) [] }
    ensures small { Below3 29 result }
{
    FACTORS[qp.row()]
}

// The factors, doubled once for each six of QP.
pub fn steps(qp: Qp) -> [u32; 3]
    ensures value { result ≡ from (λ class. v4 (qp % 6) class * 2 ^ (qp / 6)) 0 3 }
    ensures small { Below3 7424 result }
{
    let [even, odd, mixed] = factor_row(qp);
    let doublings = qp.doublings();
    [even << doublings, odd << doublings, mixed << doublings]
}

// Numbers by class, as a pattern by place.
pub fn pattern(classes: [u32; 3]) -> [[u32; 4]; 4]
    ensures { result ≡ pattern (slice_index classes 0) (slice_index classes 1) (slice_index classes 2) }
{
    let [even, odd, mixed] = classes;
    let outer = [even, mixed, even, mixed];
    let inner = [mixed, odd, mixed, odd];
    [outer, inner, outer, inner]
}
