// One tile through a kind: prediction, residual, levels, reconstruction, plane.
// Nothing is stored before the kind has answered. Memory is fixed, at the size of the largest tile: firmware has no heap.
// That lists have the kind's number of elements stands in each contract: a slice's type does not say its length.
ghost use Rattle.std.specs.Prelude.{◌≡◌, length, is_some, is_ok, if◌then◌else◌};
ghost use Rattle.kinds.specs.Meaning.{area};
ghost use Rattle.ends.specs.Planes.{bytes};
ghost use Rattle.ends.specs.Tiles.{code_levels, stored};

use crate::samples;
use crate::samples::LARGEST;
use crate::task::Task;
use crate::window::Window;
use kinds::{Kind, WidthFault};

// Codes a tile: its levels go into memory and its new samples into the plane, unless the kind refuses.
pub fn code_tile<K: Kind>(
    kind: &K,
    plane: &mut [u8],
    task: Task,
    source: &[u8],
    levels: &mut [i16],
) -> Result<(), WidthFault>
    requires plane { length plane.old ≡ bytes task.tile.size }
    requires edge { task.tile.edge ≡ (K.meaning kind.now).edge }
    requires source { length source.now ≡ area (K.meaning kind.now) }
    requires levels { length levels.old ≡ area (K.meaning kind.now) }
    ensures answer { is_ok result ≡ is_some ((K.meaning kind.now).reconstruction task.qp (code_levels (K.meaning kind.now) task plane.old source.now)) }
    ensures plane { plane.new ≡ stored task plane.old ((K.meaning kind.now).reconstruction task.qp (code_levels (K.meaning kind.now) task plane.old source.now)) }
    ensures levels { levels.new ≡ (if is_ok result then code_levels (K.meaning kind.now) task plane.old source.now else levels.old) }
{
    let Task { tile, mode, qp } = task;
    let area = tile.area();
    let mut sample_memory = [0; LARGEST];
    let mut residual_memory = [0; LARGEST];
    let mut reconstruction_memory = [0; LARGEST];
    let residual = &mut residual_memory[..area];
    let reconstruction = &mut reconstruction_memory[..area];
    let mut window = Window { plane, tile };
    let mut samples = window.predict(mode, &mut sample_memory);
    samples::subtract(source, samples.as_slice(), residual);
    // `let .. else` and not `?`: a rule of the project, so that a refusal is seen to leave before anything is stored.
    let Ok(()) = kind.levels(qp, mode.sort(), residual, levels, reconstruction) else {
        return Err(WidthFault);
    };
    window.reconstruct(&mut samples, reconstruction);
    Ok(())
}

// Reconstructs a coded tile in the plane, unless the kind refuses its levels.
pub fn follow_tile<K: Kind>(
    kind: &K,
    plane: &mut [u8],
    task: Task,
    levels: &[i16],
) -> Result<(), WidthFault>
    requires plane { length plane.old ≡ bytes task.tile.size }
    requires edge { task.tile.edge ≡ (K.meaning kind.now).edge }
    requires levels { length levels.now ≡ area (K.meaning kind.now) }
    ensures answer { is_ok result ≡ is_some ((K.meaning kind.now).reconstruction task.qp levels.now) }
    ensures plane { plane.new ≡ stored task plane.old ((K.meaning kind.now).reconstruction task.qp levels.now) }
{
    let Task { tile, mode, qp } = task;
    let area = tile.area();
    let mut sample_memory = [0; LARGEST];
    let mut reconstruction_memory = [0; LARGEST];
    let reconstruction = &mut reconstruction_memory[..area];
    // `let .. else` and not `?`: a rule of the project, so that a refusal is seen to leave before anything is stored.
    let Ok(()) = kind.reconstruct(qp, levels, reconstruction) else {
        return Err(WidthFault);
    };
    let mut window = Window { plane, tile };
    let mut samples = window.predict(mode, &mut sample_memory);
    window.reconstruct(&mut samples, reconstruction);
    Ok(())
}
