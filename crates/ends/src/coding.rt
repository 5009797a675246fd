// How a tile is coded, and the heading that a unit carries over the radio.
ghost use Rattle.std.specs.Prelude.{◌≡◌};
ghost use Rattle.ends.specs.Calls.{restart_heading};

// The place of the tile's top left sample, its QP and its mode, as yet unchecked.
// They stay plain numbers: what goes over the radio is fixed, and what is handed in may be anything.
#[derive(Clone, Copy)]
pub struct Coding {
    pub x: u16,
    pub y: u16,
    pub qp: u8,
    pub mode: u8,
}

// What the camera gives out with the levels of a tile; the two make a unit.
// `number` is the camera's count before the call. A restart has tag 0, no levels, and zeros for its coding.
// Number and tag stay plain, as the coding does.
#[derive(Clone, Copy)]
pub struct Heading {
    pub number: u32,
    pub tag: u8,
    pub coding: Coding,
}

impl Heading {
    pub fn restart(number: u32) -> Heading
        ensures { result ≡ restart_heading number }
    {
        Heading {
            number,
            tag: 0,
            coding: Coding {
                x: 0,
                y: 0,
                qp: 0,
                mode: 0,
            },
        }
    }
}
