// The handset with its plane, and the tile that it took last. `count` and `samples` are a camera's side's too: a line each,
// on a type of its own, as the two ends are.
// That an error leaves all as it was stands in each contract: no type could say what a call leaves.
ghost use Rattle.std.specs.Prelude.{◌≡◌, Some, None, OnErr};
ghost use Rattle.script.specs.Answers.{OnTried};
ghost use Rattle.script.specs.Sides.{taken, follow_of, resume_of, handset_after};

use crate::answer::Answer;
use crate::command::Unit;
use crate::memory::{Plane, Settings};
use crate::undone::Undone;
use ends::{Coding, Handset, Heading};

#[derive(Drop)]
pub struct HandsetSide {
    handset: Handset,
    plane: Plane,
    // none since it was opened or resumed
    last: Option<Coding>,
}

impl HandsetSide {
    // A handset that has taken nothing.
    pub fn new(handset: Handset, plane: Plane) -> HandsetSide
        ensures { result ≡ record { handset = handset; plane = plane; last = None } }
    {
        HandsetSide {
            handset,
            plane,
            last: None,
        }
    }

    pub fn count(&self) -> u32
        ensures { result ≡ self.now.handset.end.count }
    {
        self.handset.count()
    }

    pub fn samples(&self) -> &[u8]
        ensures { result.now ≡ self.now.plane }
    {
        self.plane.samples()
    }

    pub fn last(&self) -> Option<Coding>
        ensures { result ≡ self.now.last }
    {
        self.last
    }

    pub fn follow(&mut self, settings: Settings, unit: &Unit) -> Result<Answer, Undone>
        ensures unchanged { OnErr result (self.new ≡ self.old) }
        ensures answer { OnTried result (result ≡ taken (follow_of self.old settings unit.now)) }
        ensures after { OnTried result (self.new ≡ handset_after self.old (follow_of self.old settings unit.now) (Some unit.now.heading.coding)) }
    {
        let levels = unit.levels.as_slice();
        self.plane.lend(
            settings.handset,
            &mut self.handset,
            |handset, plane| handset.follow(&unit.kind, plane, unit.heading, levels),
        )??;
        self.last = Some(unit.heading.coding);
        Ok(Answer::Taken(self.count()))
    }

    pub fn resume(&mut self, settings: Settings, heading: Heading) -> Result<Answer, Undone>
        ensures unchanged { OnErr result (self.new ≡ self.old) }
        ensures answer { OnTried result (result ≡ taken (resume_of self.old settings heading)) }
        ensures after { OnTried result (self.new ≡ handset_after self.old (resume_of self.old settings heading) None) }
    {
        self.plane.lend(
            settings.handset,
            &mut self.handset,
            |handset, plane| handset.resume(plane, heading),
        )??;
        self.last = None;
        Ok(Answer::Taken(self.count()))
    }
}
