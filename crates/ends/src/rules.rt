// The rules of each call: the first that fits refuses it. They and their order stand in specs/Refusals. Each call spells out
// its own, as its list there does, also where another begins alike.
ghost use Rattle.std.specs.Prelude.{◌≡◌, length, Ok, Err, if◌then◌else◌};
ghost use Rattle.ends.specs.Refusals.{first_of, bad_side, bad_plane, tile_rules, open_refusal, code_refusal, restart_refusal, follow_refusal, resume_refusal};
ghost use Rattle.ends.specs.Calls.{task_of};
ghost use Rattle.ends.specs.Inner.{unless};

use crate::coding::{Coding, Heading};
use crate::end::End;
use crate::mode::Mode;
use crate::plane::Size;
use crate::refusal::Refusal;
use crate::task::Task;
use crate::tile::Tile;
use kinds::{Kind, Qp};

pub fn check_open(size: Size, plane: &[u8]) -> Result<(), Refusal>
    ensures { result ≡ unless (open_refusal size plane.now) tt }
{
    if wrong_side(size.width) || wrong_side(size.height) {
        return Err(Refusal::Size);
    }
    check_plane(size, plane)
}

impl End {
    // What code is to do.
    pub fn check_code<K: Kind>(
        &self,
        kind: &K,
        plane: &[u8],
        coding: Coding,
        source: &[u8],
        levels: &[i16],
    ) -> Result<Task, Refusal>
        ensures { result ≡ unless (code_refusal (K.meaning kind.now) self.now plane.now coding source.now levels.now) (task_of self.now.size (K.meaning kind.now).edge coding) }
    {
        check_plane(self.size, plane)?;
        if self.count == u32::MAX {
            return Err(Refusal::Count);
        }
        let edge = kind.edge();
        let area = edge * edge;
        let miscounted = source.len() != area || levels.len() != area;
        check_tile(kind, self.size, coding, miscounted)
    }

    pub fn check_restart(&self, plane: &[u8]) -> Result<(), Refusal>
        ensures { result ≡ unless (restart_refusal self.now plane.now) tt }
    {
        check_plane(self.size, plane)?;
        if self.count == u32::MAX {
            return Err(Refusal::Count);
        }
        Ok(())
    }

    // What follow is to do.
    pub fn check_follow<K: Kind>(
        &self,
        kind: &K,
        plane: &[u8],
        heading: Heading,
        levels: &[i16],
    ) -> Result<Task, Refusal>
        ensures { result ≡ unless (follow_refusal (K.meaning kind.now) self.now plane.now heading levels.now) (task_of self.now.size (K.meaning kind.now).edge heading.coding) }
    {
        check_plane(self.size, plane)?;
        if heading.number == u32::MAX {
            return Err(Refusal::Count);
        }
        if heading.tag != kind.tag() {
            return Err(Refusal::Tag);
        }
        if heading.number < self.count {
            return Err(Refusal::Late);
        }
        if heading.number > self.count {
            return Err(Refusal::Early);
        }
        let edge = kind.edge();
        check_tile(kind, self.size, heading.coding, levels.len() != edge * edge)
    }

    pub fn check_resume(&self, plane: &[u8], heading: Heading) -> Result<(), Refusal>
        ensures { result ≡ unless (resume_refusal self.now plane.now heading) tt }
    {
        check_plane(self.size, plane)?;
        if heading.number == u32::MAX {
            return Err(Refusal::Count);
        }
        // A number, as the radio hands it over: any tag but 0 is some kind's.
        if heading.tag != 0 {
            return Err(Refusal::Tag);
        }
        if heading.number < self.count {
            return Err(Refusal::Late);
        }
        Ok(())
    }
}

// The rules that code and follow share; `miscounted` says that source or levels do not number edge x edge. It is handed
// over, since code has two lists to count and follow one, and the rule stands between those for place and border.
fn check_tile<K: Kind>(
    kind: &K,
    size: Size,
    coding: Coding,
    miscounted: bool,
) -> Result<Task, Refusal>
    ensures { result ≡ unless (first_of (tile_rules size (K.meaning kind.now).edge coding miscounted)) (task_of size (K.meaning kind.now).edge coding) }
{
    let qp = Qp::try_from(coding.qp)?;
    let mode = Mode::try_from(coding.mode)?;
    let tile = Tile::new(size, kind.edge(), coding.x, coding.y).ok_or(Refusal::Place)?;
    if miscounted {
        return Err(Refusal::Length);
    }
    Task::new(tile, mode, qp).ok_or(Refusal::Border)
}

fn check_plane(size: Size, plane: &[u8]) -> Result<(), Refusal>
    ensures { result ≡ (if bad_plane size (length plane.now) then Err Refusal.Plane else Ok tt) }
{
    if plane.len() != usize::from(size.width) * usize::from(size.height) {
        return Err(Refusal::Plane);
    }
    Ok(())
}

fn wrong_side(side: u16) -> bool
    ensures { result ≡ bad_side side }
{
    side % 16 != 0 || !(16..=1024).contains(&side)
}
