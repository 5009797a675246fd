// What both ends hold: the size of their plane, and their count.
// Camera and handset stay two types over it, so that no call of the one can be made on the other.
ghost use Rattle.std.specs.Prelude.{◌≡◌, ◌+◌, false};
ghost use Rattle.ends.specs.Calls.{open_call, end_of};
ghost use Rattle.ends.specs.Refusals.{spent};

use crate::plane::Size;
use crate::refusal::Refusal;
use crate::{plane, rules};

// `count` is the number of the next unit: the camera will give it out, the handset waits for it.
#[derive(Drop)]
pub struct End {
    pub size: Size,
    pub count: u32,
}

impl End {
    // An end of the given size and first count, its plane made blank.
    #[tactic(auto, unfolding(crate::specs::Calls::opened))]
    pub fn open(size: Size, first: u32, plane: &mut [u8]) -> Result<End, Refusal>
        ensures { open_call size first plane.old ≡ record { answer = result; plane = plane.new } }
    {
        rules::check_open(size, plane)?;
        plane::clear(plane);
        Ok(End { size, count: first })
    }

    // Raises the count by one, and gives the number that it was.
    pub fn advance(&mut self) -> u32
        requires { spent self.old.count ≡ false }
        ensures number { result ≡ self.old.count }
        ensures end { self.new ≡ end_of self.old.size (self.old.count + 1) }
    {
        let number = self.count;
        self.advance_past(number);
        number
    }

    // Makes the count the number after the given one.
    pub fn advance_past(&mut self, number: u32)
        requires { spent number ≡ false }
        ensures { self.new ≡ end_of self.old.size (number + 1) }
    {
        self.count = number + 1;
    }
}
