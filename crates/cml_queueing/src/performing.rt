//! What the program's words ask for is done.
ghost use Rattle.std.specs.Prelude.{◌≢◌, IfOk, OnOk};
ghost use Rattle.cml_queueing.specs.{ServesAll, ServesAsked};

use crate::asked::{Asked, Form};
use crate::demand::Demand;
use crate::ending::Ending;
use crate::keeper::{Dropped, Written};
use crate::report::report;
use crate::simulating::simulate;
use crate::simulation::Simulation;
use cml_grammar::write_whole;
use std::alloc::Global;
use std::io::Write;

/// Simulates, and writes what is asked for. Returns the simulation as it is then.
pub(crate) fn perform<W: Write>(
    alloc: Global,
    asked: &Asked<'_>,
    writer: &mut W,
) -> Result<Simulation, Ending>
    ensures { asked.now.form ≢ Form.Report → IfOk result (ServesAsked asked.now) }
{
    let demand = Demand::of(asked)?;
    let mut simulation = Simulation::new(alloc, demand)?;
    write_asked(alloc, asked.form, &mut simulation, writer)?;
    Ok(simulation)
}

fn write_asked<W: Write>(
    alloc: Global,
    form: Form,
    simulation: &mut Simulation,
    writer: &mut W,
) -> Result<(), Ending>
    ensures { form ≢ Form.Report → OnOk result (ServesAll simulation.old simulation.new) }
{
    match form {
        Form::Figures => {
            let text = figures(alloc, simulation)?;
            write_text(writer, &text)
        }
        Form::Report => {
            let text = report(alloc, simulation)?;
            write_text(writer, &text)
        }
        Form::Journal => {
            simulate(simulation, &mut Written { alloc, writer })?;
            Ok(())
        }
    }
}

/// Simulates, and returns the lines of what was measured.
fn figures(alloc: Global, simulation: &mut Simulation) -> Result<String, Ending>
    ensures { OnOk result (ServesAll simulation.old simulation.new) }
{
    let figures = simulate(simulation, &mut Dropped)?;
    let mut text = String::new(alloc);
    let (servers, time) = (simulation.demand().servers, simulation.time());
    let calls = simulation.station().board().entries();
    figures.write(&mut text, servers, time, calls)?;
    Ok(text)
}

fn write_text<W: Write>(writer: &mut W, text: &str) -> Result<(), Ending> {
    match write_whole(writer, text.as_bytes()) {
        Ok(()) => Ok(()),
        Err(_) => Err(Ending::WriteFault),
    }
}
