//! Which ports are open, and which of them a multicast goes to.
ghost use Rattle.std.specs.Prelude.{◌≡◌, ◌++◌, OnOk};
ghost use Rattle.cml_chart.specs.{rows_in};

use crate::chart::{Added, Chart, Row, column_of};
use crate::report::Act;
use cml_calls::{Ask, Give};
use cml_grammar::{Script, Verb, split_words};
use std::alloc::{AllocError, Global};

/// A port that is open, and its channel.
#[derive(Clone, Copy)]
pub(crate) struct Listener<'a> {
    port: &'a str,
    channel: &'a str,
}

/// A row, and the columns of the ports that its message goes to if it multicasts.
#[derive(Drop)]
pub(crate) struct Drawn<'a> {
    pub(crate) row: Row<'a>,
    pub(crate) marks: Vec<usize>,
}

/// Adds these rows of a chart, with their marks. `open` has the ports that are open before the first of them.
pub(crate) fn add_drawn<'a>(
    alloc: Global,
    drawn: &mut Vec<Drawn<'a>>,
    open: &mut Vec<Listener<'a>>,
    chart: &Chart<'a>,
    rows: &[Row<'a>],
) -> Added
    ensures { OnOk result (rows_in drawn.new.items ≡ rows_in drawn.old.items ++ rows.now) }
{
    for row in rows {
        let marks = marks_of(alloc, chart, open, &row.act)?;
        drawn.push(Drawn { row: *row, marks })?;
        follow(open, &row.act)?;
    }
    Ok(())
}

/// Goes over rows that are not drawn, before those that are.
pub(crate) fn follow_all<'a>(open: &mut Vec<Listener<'a>>, rows: &[Row<'a>]) -> Added {
    for row in rows {
        follow(open, &row.act)?;
    }
    Ok(())
}

/// Adds the ports that a script declares, those of feeds too.
pub(crate) fn add_declared<'a>(
    alloc: Global,
    open: &mut Vec<Listener<'a>>,
    script: &'a Script,
) -> Added {
    for declaration in script.declarations() {
        let words = split_words(alloc, declaration.line.text.as_str())?;
        if let ["port", channel, port] | ["feed", _, port, channel, _] = words.as_slice() {
            open.push(Listener { port, channel })?;
        }
    }
    Ok(())
}

/// Opens the port that a row makes, or closes the one that it closes. A copy is of the channel of the port that it is made of.
fn follow<'a>(open: &mut Vec<Listener<'a>>, act: &Act<'a>) -> Added {
    let port = act.object;
    match (act.verb, act.with) {
        (Verb::Ask(Ask::ClosePort), _) => open.retain(|listener| listener.port != port),
        (Verb::Ask(Ask::NewPort), Some(channel)) => open.push(Listener { port, channel })?,
        (Verb::Ask(Ask::CopyPort), Some(source)) if act.reply == "made" => {
            if let Some(listener) = open.iter().find(|listener| listener.port == source) {
                let channel = listener.channel;
                open.push(Listener { port, channel })?;
            }
        }
        _ => {}
    }
    Ok(())
}

/// The columns of the open ports of the channel on which an act multicasts, if it does.
fn marks_of(
    alloc: Global,
    chart: &Chart<'_>,
    open: &[Listener<'_>],
    act: &Act<'_>,
) -> Result<Vec<usize>, AllocError> {
    let mut marks = Vec::new(alloc);
    for listener in open {
        if act.verb == Verb::Give(Give::Cast)
            && listener.channel == act.object
            && let Some(column) = column_of(&chart.names, listener.port)
        {
            marks.push(column)?;
        }
    }
    Ok(marks)
}
