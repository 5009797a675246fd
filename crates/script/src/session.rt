// A run of a script: the settings, and the ends once they are open.
// That an error leaves all as it was stands in each contract: no type could say what a call leaves.
ghost use Rattle.std.specs.Prelude.{◌≡◌, true, OnErr};
ghost use Rattle.script.specs.Answers.{idle_line};
ghost use Rattle.script.specs.State.{at_first, with_memory, with_room};

use crate::answer::Answer;
use crate::camera_side::CameraSide;
use crate::command::{Amount, Command, End, MOST_MEMORY};
use crate::fault::Fault;
use crate::handset_side::HandsetSide;
use crate::memory::{Plane, Settings};
use crate::opened::Opened;
use crate::parse::parse_line;
use crate::undone::Undone;
use ends::{Camera, Handset, Size};
use std::alloc::{AllocError, Global};

#[derive(Drop)]
pub struct Session {
    heap: Global,
    settings: Settings,
    opened: Option<Opened>,
}

impl Session {
    pub fn new(heap: Global) -> Session
        ensures { result ≡ at_first heap }
    {
        let settings = Settings {
            camera: Amount::All,
            handset: Amount::All,
            room: Amount::All,
        };
        Session {
            heap,
            settings,
            opened: None,
        }
    }

    // What a line answers, or none where it holds no command.
    pub fn answer_line(&mut self, line: &[u8]) -> Result<Option<Answer>, Undone>
        ensures unchanged { idle_line result ≡ true → self.new ≡ self.old }
    {
        match parse_line(self.heap, line)? {
            Some(command) => Ok(Some(self.run(command)?)),
            None => Ok(None),
        }
    }

    fn run(&mut self, command: Command) -> Result<Answer, Undone>
        ensures unchanged { OnErr result (self.new ≡ self.old) }
    {
        match command {
            Command::Open { size, first } => self.open(size, first),
            Command::Memory(end, amount) => Ok(self.set_memory(end, amount)),
            Command::Room(amount) => Ok(self.set_room(amount)),
            Command::Levels {
                kind,
                sort,
                residual,
            } => kind.levels(self.heap, sort, residual.as_slice()),
            Command::Rebuild { kind, levels } => kind.rebuild(self.heap, levels.as_slice()),
            Command::Distance { kind, sort } => kind.distance(sort),
            Command::OfEnds(command) => match &mut self.opened {
                Some(opened) => opened.run(self.heap, self.settings, command),
                None => Err(Undone::InError(Fault::NotOpen)),
            },
        }
    }

    // Both ends anew. Where one is refused, the earlier ones stay.
    fn open(&mut self, size: Size, first: u32) -> Result<Answer, Undone>
        ensures unchanged { OnErr result (self.new ≡ self.old) }
    {
        let mut camera_plane = new_plane(self.heap, size, self.settings.camera)?;
        let mut handset_plane = new_plane(self.heap, size, self.settings.handset)?;
        let camera = Camera::open(size, first, camera_plane.as_mut_slice())?;
        let handset = Handset::open(size, first, handset_plane.as_mut_slice())?;
        self.opened = Some(Opened {
            size,
            camera: CameraSide::new(self.heap, camera, Plane::new(camera_plane)),
            handset: HandsetSide::new(handset, Plane::new(handset_plane)),
        });
        Ok(Answer::Opened { size, first })
    }

    fn set_memory(&mut self, end: End, amount: Amount) -> Answer
        ensures answer { result ≡ Answer.Memory end amount }
        ensures after { self.new ≡ with_memory self.old end amount }
    {
        match end {
            End::Camera => self.settings.camera = amount,
            End::Handset => self.settings.handset = amount,
        }
        Answer::Memory(end, amount)
    }

    fn set_room(&mut self, amount: Amount) -> Answer
        ensures answer { result ≡ Answer.Room amount }
        ensures after { self.new ≡ with_room self.old amount }
    {
        self.settings.room = amount;
        Answer::Room(amount)
    }
}

// The memory that open is handed. A size of more bytes than MOST_MEMORY is refused, whatever it is handed.
fn new_plane(heap: Global, size: Size, amount: Amount) -> Result<Vec<u8>, AllocError> {
    let bytes = amount.of(usize::from(size.width) * usize::from(size.height));
    vec![in heap; 0u8; bytes.min(MOST_MEMORY)]
}
