// What a kind of tile coding is. Its meaning is one value, given by `meaning`; every method equals it.
// `facts` is what each kind shows of its meaning: all that the layers above rest on.
// A kind may presume its `requires`: a residual in -255..255, memory for edge x edge.
ghost use Rattle.std.specs.Prelude.{◌≡◌, length, is_some, is_ok, if◌then◌else◌};
ghost use Rattle.std.specs.Option.{unwrap_or};
ghost use Rattle.kinds.specs.Meaning.{Meaning, Facts, Differences, area, round_trip};

use crate::qp::Qp;

// What the prediction of a tile was made from: samples around it, or the picture before it.
#[derive(Clone, Copy)]
pub enum Sort {
    Intra,
    Inter,
}

// A number in the reconstruction of a tile left its width.
#[derive(Clone, Copy)]
pub struct WidthFault;

pub trait Kind {
    ghost meaning: { Self → Meaning };

    // The side of a tile, in samples.
    fn edge(&self) -> usize
        ensures { result ≡ (meaning self.now).edge };

    // The number that names the kind in a heading. Not an enum: whoever writes a kind gives it a number of its own.
    fn tag(&self) -> u8
        ensures { result ≡ (meaning self.now).tag };

    // Fills `levels` with the levels of a residual, and `reconstruction` with what they stand for.
    // It refuses just where that reconstruction is refused, and then leaves both as they were.
    fn levels(
        &self,
        qp: Qp,
        sort: Sort,
        residual: &[i16],
        levels: &mut [i16],
        reconstruction: &mut [i16],
    ) -> Result<(), WidthFault>
        requires differences { Differences residual.now }
        requires residual { length residual.now ≡ area (meaning self.now) }
        requires levels { length levels.old ≡ area (meaning self.now) }
        requires reconstruction { length reconstruction.old ≡ area (meaning self.now) }
        ensures answer { is_ok result ≡ is_some (round_trip (meaning self.now) qp sort residual.now) }
        ensures levels { levels.new ≡ (if is_ok result then (meaning self.now).levels qp sort residual.now else levels.old) }
        ensures reconstruction { reconstruction.new ≡ unwrap_or (round_trip (meaning self.now) qp sort residual.now) reconstruction.old };

    // Fills `reconstruction` with the residual that levels stand for, or refuses and leaves it as it was.
    fn reconstruct(
        &self,
        qp: Qp,
        levels: &[i16],
        reconstruction: &mut [i16],
    ) -> Result<(), WidthFault>
        requires levels { length levels.now ≡ area (meaning self.now) }
        requires reconstruction { length reconstruction.old ≡ area (meaning self.now) }
        ensures answer { is_ok result ≡ is_some ((meaning self.now).reconstruction qp levels.now) }
        ensures reconstruction { reconstruction.new ≡ unwrap_or ((meaning self.now).reconstruction qp levels.now) reconstruction.old };

    // How far a sample of a reconstruction may lie from the residual that was coded.
    fn distance(&self, qp: Qp, sort: Sort) -> u32
        ensures { result ≡ (meaning self.now).distance qp sort };

    ghost facts: { (k : Self) → Facts (meaning k) };
}
