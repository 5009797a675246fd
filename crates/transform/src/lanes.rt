// Lines of N numbers, in the lanes of a vector: what is done to one number is done to all N at once.
// Numbers of at most 2^29 in size leave room for each of these. No type carries that: a sum uses some of the room up.
ghost use Rattle.std.specs.Prelude.{◌≡◌, ◌^◌, ◌<◌, ◌+ℤ◌, ◌-ℤ◌};
ghost use Rattle.std.specs.Int.Signed.{shr_z};
ghost use Rattle.laws.specs.Blocks.{at, from};
ghost use Rattle.transform.specs.Inner.{SizedLine};

use std::simd::prelude::*;

// a + b
pub fn sum<const N: usize>(a: [i32; N], b: [i32; N]) -> [i32; N]
    requires left { SizedLine N 536870912 a }
    requires right { SizedLine N 536870912 b }
    ensures { result ≡ from (λ i. at a.entry i +ℤ at b.entry i) 0 N }
{
    Simd::from_array(a)
        .strict_add(Simd::from_array(b))
        .to_array()
}

// a - b. Beside `sum`, one operator apart: a closure for it would carry its own bounds and result into every call.
pub fn difference<const N: usize>(a: [i32; N], b: [i32; N]) -> [i32; N]
    requires left { SizedLine N 536870912 a }
    requires right { SizedLine N 536870912 b }
    ensures { result ≡ from (λ i. at a.entry i -ℤ at b.entry i) 0 N }
{
    Simd::from_array(a)
        .strict_sub(Simd::from_array(b))
        .to_array()
}

// a >> places, which rounds down.
pub fn shifted<const N: usize>(a: [i32; N], places: u32) -> [i32; N]
    requires size { SizedLine N 536870912 a }
    requires places { places < 32 }
    ensures value { result ≡ from (λ i. shr_z (at a.entry i) (2 ^ places)) 0 N }
    ensures size { SizedLine N 536870912 result }
{
    (Simd::from_array(a) >> Simd::splat(places as i32)).to_array()
}
