//! The obstacles between the footprints of a yard.
ghost use Rattle.std.specs.Prelude.{◌≡◌, ◌<◌, IfOk};
ghost use Rattle.tardiness_bounds.specs.Footprints.{footprint_at, footprint_count, pair_at};
ghost use Rattle.tardiness_bounds.specs.Obstacles.{AreObstacles};

use code_table::Codes;
use minkowski_obstacles::Obstacle;
use shape_exact::{NoMemory, Shape};
use std::alloc::Global;

/// The obstacle of each footprint that may stand for each turned footprint of a block: by the number of the first, and
/// then of the second. Footprints are numbered by block and turn; after them come the pieces.
#[derive(Drop)]
pub(crate) struct Obstacles {
    pub list: Vec<Obstacle>,
}

/// The footprint with this number.
pub(crate) fn footprint_at(codes: &Codes, number: usize) -> &Shape
    requires { number < footprint_count codes.now }
    ensures { result.now ≡ footprint_at codes.now number }
{
    let yard = codes.yard();
    let turned = yard.blocks().len() * 4;
    if number < turned {
        codes.shape((number / 4) as u8, (number % 4) as u8)
    } else {
        let pieces = yard.fixed();
        &pieces[number - turned].shape
    }
}

/// The obstacle of one footprint for another.
fn obstacle_at(codes: &Codes, standing: usize, moving: usize) -> Obstacle
    requires standing { standing < footprint_count codes.now }
    requires moving { moving < footprint_count codes.now }
    ensures { result ≡ pair_at codes.now standing moving }
{
    Obstacle::of(footprint_at(codes, standing), footprint_at(codes, moving))
}

impl Obstacles {
    /// All obstacles of a yard.
    pub(crate) fn new(alloc: Global, codes: &Codes) -> Result<Obstacles, NoMemory>
        ensures { IfOk result (λ o. AreObstacles codes.now o.list.items) }
    {
        let turned = codes.yard().blocks().len() * 4;
        let count = turned + codes.yard().fixed().len();
        let mut list = Vec::with_capacity(alloc, count * turned)?;
        for k in 0..count * turned {
            list.push(obstacle_at(codes, k / turned, k % turned))?;
        }
        Ok(Obstacles { list })
    }
}
