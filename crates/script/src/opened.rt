// Both ends, opened alike, each with its plane.
// That an error leaves all as it was stands in each contract: no type could say what a call leaves.
ghost use Rattle.std.specs.Prelude.{◌≡◌, IfOk, OnErr};
ghost use Rattle.script.specs.Answers.{count_of, page_of, samples_of, shown_plane};

use crate::answer::Answer;
use crate::camera_side::CameraSide;
use crate::command::{End, EndsCommand};
use crate::handset_side::HandsetSide;
use crate::memory::Settings;
use crate::undone::Undone;
use ends::Size;
use std::alloc::{AllocError, Global};

#[derive(Drop)]
pub struct Opened {
    pub size: Size,
    pub camera: CameraSide,
    pub handset: HandsetSide,
}

impl Opened {
    pub fn run(
        &mut self,
        heap: Global,
        settings: Settings,
        command: EndsCommand,
    ) -> Result<Answer, Undone>
        ensures unchanged { OnErr result (self.new ≡ self.old) }
    {
        match command {
            EndsCommand::Code(source) => self.camera.code(heap, settings, &source),
            EndsCommand::Restart => self.camera.restart(settings),
            EndsCommand::Follow(index) => self.handset.follow(settings, self.camera.unit(index)?),
            EndsCommand::Resume(index) => self
                .handset
                .resume(settings, self.camera.heading(index)?),
            EndsCommand::Offer(unit) => self.handset.follow(settings, &unit),
            EndsCommand::Mark(heading) => self.handset.resume(settings, heading),
            EndsCommand::Plane(end) => Ok(self.plane(heap, end)?),
            EndsCommand::Count(end) => Ok(self.count(end)),
            EndsCommand::Page => Ok(self.page()),
        }
    }

    fn plane(&self, heap: Global, end: End) -> Result<Answer, AllocError>
        ensures { IfOk result (λ answer. samples_of answer ≡ shown_plane self.now end) }
    {
        let samples = match end {
            End::Camera => self.camera.samples(),
            End::Handset => self.handset.samples(),
        };
        Ok(Answer::Plane {
            size: self.size,
            samples: Vec::from_slice(heap, samples)?,
        })
    }

    fn count(&self, end: End) -> Answer
        ensures { result ≡ count_of self.now end }
    {
        let count = match end {
            End::Camera => self.camera.count(),
            End::Handset => self.handset.count(),
        };
        Answer::Count(count)
    }

    // The service page shows the handset.
    fn page(&self) -> Answer
        ensures { result ≡ page_of self.now }
    {
        Answer::Page {
            count: self.handset.count(),
            last: self.handset.last(),
        }
    }
}
