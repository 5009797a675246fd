// The camera end: it codes tiles into units and gives out restarts.
// Its plane is handed to each call, and holds what the handset's will hold once it has followed.
// A type of its own, so that no handset's call is made on it: `open` and `count` are therefore written twice.
ghost use Rattle.std.specs.Prelude.{◌≡◌};
ghost use Rattle.ends.specs.Calls.{as_camera, open_call, code_call, restart_call};
ghost use Rattle.ends.specs.Runs.{RunLaw};

use crate::coding::{Coding, Heading};
use crate::end::End;
use crate::plane::Size;
use crate::refusal::Refusal;
use crate::{coder, plane};
use kinds::Kind;

#[derive(Drop)]
pub struct Camera {
    end: End,
}

impl Camera {
    // A camera whose plane is blank. Ends opened with the same size and first count are opened alike.
    pub fn open(size: Size, first: u32, plane: &mut [u8]) -> Result<Camera, Refusal>
        ensures answer { result ≡ as_camera (open_call size first plane.old).answer }
        ensures plane { plane.new ≡ (open_call size first plane.old).plane }
        ensures law { RunLaw size first }
    {
        Ok(Camera {
            end: End::open(size, first, plane)?,
        })
    }

    // The number of the next unit or restart.
    pub fn count(&self) -> u32
        ensures { result ≡ self.now.end.count }
    {
        self.end.count
    }

    // Codes a tile: its levels fill the memory, its reconstruction is stored in the plane, and the count goes up by one.
    #[tactic(auto, unfolding(crate::specs::Calls::coded))]
    pub fn code<K: Kind>(
        &mut self,
        kind: &K,
        plane: &mut [u8],
        coding: Coding,
        source: &[u8],
        levels: &mut [i16],
    ) -> Result<Heading, Refusal>
        ensures { code_call (K.meaning kind.now) self.old.end plane.old coding source.now levels.old ≡ record { answer = result; end = self.new.end; plane = plane.new; levels = levels.new } }
    {
        let task = self.end.check_code(kind, plane, coding, source, levels)?;
        coder::code_tile(kind, plane, task, source, levels)?;
        Ok(Heading {
            number: self.end.advance(),
            tag: kind.tag(),
            coding,
        })
    }

    // Makes the plane blank, so that a handset can begin anew from here.
    #[tactic(auto, unfolding(crate::specs::Calls::restarted))]
    pub fn restart(&mut self, plane: &mut [u8]) -> Result<Heading, Refusal>
        ensures { restart_call self.old.end plane.old ≡ record { answer = result; end = self.new.end; plane = plane.new } }
    {
        self.end.check_restart(plane)?;
        plane::clear(plane);
        Ok(Heading::restart(self.end.advance()))
    }
}
