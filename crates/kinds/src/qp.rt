// The quantiser parameter, QP: a number up to 51. Six more double every step of the quantiser.
ghost use Rattle.std.specs.Prelude.{◌≡◌, ℕ, ◌/◌, ◌%◌, ◌<◌, ◌≤◌, MatchResult};

use std::marker::Model;

#[derive(Clone, Copy)]
pub struct Qp {
    number: u8,
}

// To contracts a QP is its number.
impl Model for Qp {
    ghost Value = { ℕ };

    ghost view = { λ qp. qp.number };

    ghost inverse = { λ number. record { number = number } };

    ghost invariant = { λ qp. qp.number ≤ 51 };
}

// A number above 51 is no QP.
#[derive(Clone, Copy)]
pub struct QpFault;

impl TryFrom<u8> for Qp {
    type Error = QpFault;

    ghost try_from_gives = { λ number answer. MatchResult answer (λ qp. (qp ≡ number) × (number ≤ 51)) (λ _. 51 < number) };

    fn try_from(number: u8) -> Result<Qp, QpFault> {
        if number > 51 {
            return Err(QpFault);
        }
        Ok(Qp { number })
    }
}

impl Qp {
    // The row of a table that QP chooses: tables repeat after six.
    pub fn row(self) -> usize
        ensures value { result ≡ self % 6 }
        ensures small { result < 6 }
    {
        usize::from(self.number % 6)
    }

    // How often a step is doubled.
    pub fn doublings(self) -> u32
        ensures value { result ≡ self / 6 }
        ensures small { result ≤ 8 }
    {
        u32::from(self.number / 6)
    }
}
