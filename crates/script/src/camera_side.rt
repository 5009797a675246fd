// The camera with its plane, and all that it has given out.
// Each call finds its memory made before it: once the camera has answered, nothing can fail.
// That an error leaves all as it was stands in each contract: no type could say what a call leaves.
ghost use Rattle.std.specs.Prelude.{◌≡◌, [], length, slice_get, Some, IfOk, OnErr};
ghost use Rattle.script.specs.Answers.{OnTried};
ghost use Rattle.script.specs.Sides.{restart_of, restart_answer, restart_after};

use crate::answer::Answer;
use crate::command::{Source, Unit};
use crate::fault::Fault;
use crate::memory::{Plane, Settings};
use crate::undone::Undone;
use ends::{Camera, Heading};
use kinds::Kind;
use std::alloc::Global;
use std::marker::Model;

#[derive(Drop)]
pub enum Given {
    Unit(Unit),
    Restart(Heading),
}

#[derive(Drop)]
pub struct CameraSide {
    camera: Camera,
    plane: Plane,
    given: Vec<Given>,
}

// To contracts it is what it holds, wherever its list lies in memory.
impl Model for CameraSide {
    ghost use Rattle.std.specs.Prelude.{vec_items};
    ghost use Rattle.script.specs.CameraState.{CameraState};

    ghost Value = { CameraState };

    ghost view = { λ side. record { camera = side.camera; plane = side.plane; given = vec_items side.given } };
}

impl CameraSide {
    // A camera that has given out nothing.
    pub fn new(heap: Global, camera: Camera, plane: Plane) -> CameraSide
        ensures { result ≡ record { camera = camera; plane = plane; given = [] } }
    {
        CameraSide {
            camera,
            plane,
            given: Vec::new(heap),
        }
    }

    pub fn count(&self) -> u32
        ensures { result ≡ self.now.camera.end.count }
    {
        self.camera.count()
    }

    pub fn samples(&self) -> &[u8]
        ensures { result.now ≡ self.now.plane }
    {
        self.plane.samples()
    }

    // The unit that was given out as `index`.
    pub fn unit(&self, index: usize) -> Result<&Unit, Fault>
        ensures { IfOk result (λ unit. slice_get self.now.given index ≡ Some (Given.Unit unit.now)) }
    {
        match self.given.get(index) {
            Some(Given::Unit(unit)) => Ok(unit),
            Some(Given::Restart(_)) => Err(Fault::NotUnit(index)),
            None => Err(Fault::NotGiven(index)),
        }
    }

    // The heading of the restart that was given out as `index`.
    // Beside `unit`: each takes out its own variant and names its own fault.
    pub fn heading(&self, index: usize) -> Result<Heading, Fault>
        ensures { IfOk result (λ heading. slice_get self.now.given index ≡ Some (Given.Restart heading)) }
    {
        match self.given.get(index) {
            Some(Given::Restart(heading)) => Ok(*heading),
            Some(Given::Unit(_)) => Err(Fault::NotRestart(index)),
            None => Err(Fault::NotGiven(index)),
        }
    }

    pub fn code(
        &mut self,
        heap: Global,
        settings: Settings,
        source: &Source,
    ) -> Result<Answer, Undone>
        ensures unchanged { OnErr result (self.new ≡ self.old) }
    {
        let kind = source.kind;
        let room = settings.room.of(kind.edge() * kind.edge());
        let mut levels = vec![in heap; 0i16; room]?;
        let mut shown = vec![in heap; 0i16; room]?;
        self.given.reserve(1)?;
        // The levels come back with the answer: of a changed capture, nothing is known after the call.
        let (coded, levels) = self
            .plane
            .lend(settings.camera, &mut self.camera, move |camera, plane| {
                let samples = source.samples.as_slice();
                let coded = camera.code(
                    &kind,
                    plane,
                    source.coding,
                    samples,
                    levels.as_mut_slice(),
                );
                (coded, levels)
            })?;
        let heading = coded?;
        shown.copy_from_slice(levels.as_slice());
        let index = self.given.len();
        self.given.push_reserved(Given::Unit(Unit {
            kind,
            heading,
            levels,
        }));
        Ok(Answer::Unit {
            index,
            heading,
            levels: shown,
        })
    }

    pub fn restart(&mut self, settings: Settings) -> Result<Answer, Undone>
        ensures unchanged { OnErr result (self.new ≡ self.old) }
        ensures answer { OnTried result (result ≡ restart_answer (length self.old.given) (restart_of self.old settings).answer) }
        ensures after { OnTried result (self.new ≡ restart_after self.old (restart_of self.old settings)) }
    {
        self.given.reserve(1)?;
        let heading = self
            .plane
            .lend(settings.camera, &mut self.camera, Camera::restart)??;
        let index = self.given.len();
        self.given.push_reserved(Given::Restart(heading));
        Ok(Answer::Restart {
            index,
            number: heading.number,
        })
    }
}
