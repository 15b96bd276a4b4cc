//! A whole run.
ghost use Rattle.std.specs.Prelude.{OnOk};
ghost use Rattle.cml_queueing.specs.{KeepsDemand, ServesAll};

use crate::ending::Ending;
use crate::figures::Figures;
use crate::keeper::Keeper;
use crate::simulation::Simulation;

/// How many events happen before the journal is cut. Each event makes at most three calls.
const PIECE: u64 = 16_384;

/// Performs all events. Whenever the journal has a piece, it goes to the keeper. If it succeeds, the servers received the customers
/// 0, 1, 2 and so on up to the last that was to arrive, in this order, each once.
pub(crate) fn simulate<K: Keeper>(
    simulation: &mut Simulation,
    keeper: &mut K,
) -> Result<Figures, Ending>
    ensures { OnOk result (ServesAll simulation.old simulation.new) }
{
    simulation.open()?;
    for _ in 0..u64::MAX {
        let is_over = perform_piece(simulation)?;
        simulation.cut(keeper)?;
        if is_over {
            break;
        }
    }
    let figures = simulation.figures();
    if figures.served != simulation.demand().customers {
        return Err(Ending::Unserved);
    }
    Ok(figures)
}

/// Performs a piece's events. Returns whether none is left.
fn perform_piece(simulation: &mut Simulation) -> Result<bool, Ending>
    ensures { KeepsDemand simulation.old simulation.new }
{
    for _ in 0..PIECE {
        if !simulation.step()? {
            return Ok(true);
        }
    }
    Ok(false)
}
