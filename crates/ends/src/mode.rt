// What the samples of a tile are predicted by.
ghost use Rattle.std.specs.Prelude.{◌≡◌, ◌<◌, ◌≤◌, MatchResult};
ghost use Rattle.ends.specs.Tiles.{sort_of, mode_of};

use kinds::Sort;

#[derive(Clone, Copy)]
pub enum Mode {
    // each sample by what the plane holds there
    Colocated = 0,
    // the sample just above the tile, down each column
    Vertical = 1,
    // the sample just left of the tile, along each row
    Horizontal = 2,
    // one mean of the samples above and left, for the whole tile
    Mean = 3,
}

// A number above 3 is no mode.
#[derive(Clone, Copy)]
pub struct ModeFault;

impl TryFrom<u8> for Mode {
    type Error = ModeFault;

    ghost try_from_gives = { λ number answer. MatchResult answer (λ mode. (mode ≡ mode_of number) × (number ≤ 3)) (λ _. 3 < number) };

    fn try_from(number: u8) -> Result<Mode, ModeFault> {
        match number {
            0 => Ok(Mode::Colocated),
            1 => Ok(Mode::Vertical),
            2 => Ok(Mode::Horizontal),
            3 => Ok(Mode::Mean),
            _ => Err(ModeFault),
        }
    }
}

impl Mode {
    // No From: `mode.sort()` names what it gives.
    pub fn sort(self) -> Sort
        ensures { result ≡ sort_of self }
    {
        match self {
            Mode::Colocated => Sort::Inter,
            Mode::Vertical | Mode::Horizontal | Mode::Mean => Sort::Intra,
        }
    }
}
