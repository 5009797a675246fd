// The handset end: it follows the camera's units and resumes at its restarts.
// Its plane is handed to each call. A type of its own, so that no camera's call is made on it.
ghost use Rattle.std.specs.Prelude.{◌≡◌};
ghost use Rattle.ends.specs.Calls.{as_handset, open_call, follow_call, resume_call};
ghost use Rattle.ends.specs.Runs.{RunLaw};

use crate::coding::Heading;
use crate::end::End;
use crate::plane::Size;
use crate::refusal::Refusal;
use crate::{coder, plane};
use kinds::Kind;

#[derive(Drop)]
pub struct Handset {
    end: End,
}

impl Handset {
    // A handset whose plane is blank. Ends opened with the same size and first count are opened alike.
    pub fn open(size: Size, first: u32, plane: &mut [u8]) -> Result<Handset, Refusal>
        ensures answer { result ≡ as_handset (open_call size first plane.old).answer }
        ensures plane { plane.new ≡ (open_call size first plane.old).plane }
        ensures law { RunLaw size first }
    {
        Ok(Handset {
            end: End::open(size, first, plane)?,
        })
    }

    // The number of the unit that would be taken next.
    pub fn count(&self) -> u32
        ensures { result ≡ self.now.end.count }
    {
        self.end.count
    }

    // Takes the unit whose number is the count: stores the reconstruction of its levels, and raises the count by one.
    #[tactic(auto, unfolding(crate::specs::Calls::followed))]
    pub fn follow<K: Kind>(
        &mut self,
        kind: &K,
        plane: &mut [u8],
        heading: Heading,
        levels: &[i16],
    ) -> Result<(), Refusal>
        ensures { follow_call (K.meaning kind.now) self.old.end plane.old heading levels.now ≡ record { answer = result; end = self.new.end; plane = plane.new } }
    {
        let task = self.end.check_follow(kind, plane, heading, levels)?;
        coder::follow_tile(kind, plane, task, levels)?;
        self.end.advance();
        Ok(())
    }

    // Takes a restart whose number is the count or above: makes the plane blank, and counts on from there.
    #[tactic(auto, unfolding(crate::specs::Calls::resumed))]
    pub fn resume(&mut self, plane: &mut [u8], heading: Heading) -> Result<(), Refusal>
        ensures { resume_call self.old.end plane.old heading ≡ record { answer = result; end = self.new.end; plane = plane.new } }
    {
        self.end.check_resume(plane, heading)?;
        plane::clear(plane);
        self.end.advance_past(heading.number);
        Ok(())
    }
}
