// A plane: the picture that an end holds, a byte for each sample.
ghost use Rattle.std.specs.Prelude.{◌≡◌, length};
ghost use Rattle.ends.specs.Planes.{blank};

// The width and the height of a plane, in samples, as yet unchecked: only open tests them.
#[derive(Clone, Copy)]
pub struct Size {
    pub width: u16,
    pub height: u16,
}

// Makes every sample 128.
pub fn clear(plane: &mut [u8])
    ensures { plane.new ≡ blank (length plane.old) }
{
    plane.fill(128);
}
