// The memory that the calls are handed.
// That an error leaves all as it was stands in each contract: no type could say what a call leaves.
ghost use Rattle.std.specs.Prelude.{◌≡◌, List, ℕ, IfOk, OnErr};
ghost use Rattle.script.specs.Memory.{memory_of, written, LentTo};

use crate::command::Amount;
use std::alloc::AllocError;
use std::marker::Model;

// The bytes that each end is handed, and the levels that code is handed besides.
#[derive(Clone, Copy)]
pub struct Settings {
    pub camera: Amount,
    pub handset: Amount,
    pub room: Amount,
}

// An end's plane. To contracts it is its samples, wherever they lie.
#[derive(Drop)]
pub struct Plane {
    samples: Vec<u8>,
}

impl Model for Plane {
    ghost use Rattle.std.specs.Prelude.{ℕ, List, vec_items};

    ghost Value = { List ℕ };

    ghost view = { λ plane. vec_items plane.samples };
}

impl Plane {
    pub fn new(samples: Vec<u8>) -> Plane
        ensures { result ≡ samples.items }
    {
        Plane { samples }
    }

    pub fn samples(&self) -> &[u8]
        ensures { result.now ≡ self.now }
    {
        self.samples.as_slice()
    }

    // Calls an end on the first bytes of its plane, with zero bytes behind the plane where it is shorter.
    // The end is a parameter: of a capture that a closure changed, nothing is known after the call.
    pub fn lend<E, R, F: FnOnce(&mut E, &mut [u8]) -> R>(
        &mut self,
        amount: Amount,
        end: &mut E,
        call: F,
    ) -> Result<R, AllocError>
        requires { F.IsAlwaysCallable call }
        ensures unchanged { OnErr result (self.new ≡ self.old) }
        ensures end_unchanged { OnErr result (end.new ≡ end.old) }
        ensures lent { IfOk result (λ answer. (back : List ℕ) × LentTo F.FnOnce call end.old (memory_of self.old amount) answer end.new back × (self.new ≡ written self.old back)) }
    {
        let area = self.samples.len();
        let bytes = amount.of(area);
        self.samples.resize(bytes.max(area), 0)?;
        let answer = call(end, &mut self.samples[0..bytes]);
        self.samples.truncate(area);
        Ok(answer)
    }
}
