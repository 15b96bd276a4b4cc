//! A chart: the columns of a run, and a row for each line of the report's first part.
ghost use Rattle.std.specs.Prelude.{◌≡◌, ◌⊎◌, ◌+◌, ◌++◌, ◌≤◌, ◌<◌, length, map, string_bytes, IfSome, IfOk, IfErr};
ghost use Rattle.std.specs.Prelude.{OnOk, MatchOption, Some, None};
ghost use Rattle.std.specs.Option.{option_map};
ghost use Rattle.cml_chart.specs.declared.report.faults.What.TheVariants.{Memory, NameTaken, UnknownName};
ghost use Rattle.cml_chart.specs.{shown_actor, shown_act, shown_object, shown_threads, doer_text, names_of, with_name, each_once, name_in};
ghost use Rattle.cml_chart.specs.{doer_in, is_among, taken_from, column_of, deeds_of, things_of, IsCourse, lines_fault, titles_of, joined};
ghost use Rattle.cml_chart.specs.{arrow_of, unknown_from, chart_fault, shown_row, IsChart};

use crate::following::{Thread, threads_behind};
use crate::report::{Act, Actor, Fault, Object, Report, What};
use cml_grammar::Script;
use indexmap::IndexSet;
use std::alloc::{AllocError, Global};

/// What comes of adding something.
pub(crate) type Added = Result<(), AllocError>;

/// A line of the first part, and the columns of who acts and of the object.
#[derive(Clone, Copy)]
pub(crate) struct Row<'a> {
    pub(crate) act: Act<'a>,
    pub(crate) actor: usize,
    pub(crate) object: usize,
}

/// The columns of a run, and a row for each line of the first part.
#[derive(Drop)]
pub(crate) struct Chart<'a> {
    /// The columns' names: the threads, the lanes and feeds, and the objects.
    pub(crate) names: IndexSet<String>,
    /// How many of the columns are of those who act: threads, lanes or feeds.
    pub(crate) actors: usize,
    pub(crate) rows: Vec<Row<'a>>,
}

/// The course of a run. Without a script it has no threads.
#[derive(Drop)]
pub(crate) struct Course<'a> {
    pub(crate) report: Report<'a>,
    pub(crate) threads: Vec<Thread<'a>>,
    pub(crate) chart: Chart<'a>,
}

/// The course of a run by its report. The report must have a chart, and be one of this script, if one is given.
pub(crate) fn course_of<'a>(
    alloc: Global,
    script: Option<&'a Script>,
    report: Report<'a>,
) -> Result<Course<'a>, Fault>
    requires few { length report.acts.items + length report.objects.items ≤ 33554432 }
    ensures course { IfOk result (IsCourse (option_map (λ s. s.now) script.entry)) }
    ensures kept { IfOk result (λ course. course.report ≡ report.entry) }
    ensures fault { IfErr result (λ fault. (fault.what ≡ Memory)
        ⊎ (lines_fault (option_map (λ s. s.now) script.entry) (deeds_of report.entry) (things_of report.entry) ≡ Some fault)) }
{
    let threads = threads_behind(alloc, script, &report)?;
    let chart = chart_of(alloc, &threads, &report.acts, &report.objects)?;
    Ok(Course {
        report,
        threads,
        chart,
    })
}

/// The chart of a report. Each object must have a name that no other column has, and a line in the second part. These
/// threads come first.
fn chart_of<'a>(
    alloc: Global,
    threads: &[Thread<'_>],
    acts: &[Act<'a>],
    objects: &[Object<'_>],
) -> Result<Chart<'a>, Fault>
    requires few { length acts.now + length objects.now ≤ 33554432 }
    ensures chart { IfOk result
        (λ chart. IsChart (shown_threads threads.now) (map shown_act acts.now) (map shown_object objects.now) chart) }
    ensures fault { IfErr result (λ fault. (fault.what ≡ Memory)
        ⊎ (chart_fault (shown_threads threads.now) (map shown_act acts.now) (map shown_object objects.now) ≡ Some fault)) }
{
    let mut names = IndexSet::new(alloc);
    add_threads(alloc, &mut names, threads)?;
    add_actors(alloc, &mut names, acts, false)?;
    add_actors(alloc, &mut names, acts, true)?;
    let actors = names.len();
    add_objects(alloc, &mut names, objects, acts.len() + 1)?;
    let rows = rows_of(alloc, &names, actors, acts)?;
    Ok(Chart {
        names,
        actors,
        rows,
    })
}

/// Adds the threads of a script.
fn add_threads(alloc: Global, names: &mut IndexSet<String>, threads: &[Thread<'_>]) -> Added
    ensures { OnOk result (names_of names.new.keys ≡ each_once (names_of names.old.keys) (map name_in (shown_threads threads.now))) }
{
    for thread in threads {
        add_name(names, String::from_str(alloc, thread.name)?)?;
    }
    Ok(())
}

/// Adds the actors, each once where it first acts: the lanes and feeds if `rings`, else the threads.
fn add_actors(alloc: Global, names: &mut IndexSet<String>, acts: &[Act<'_>], rings: bool) -> Added
    ensures { OnOk result (names_of names.new.keys ≡ each_once (names_of names.old.keys) (map (doer_in rings) (map shown_act acts.now))) }
{
    for act in acts {
        if matches!(act.actor, Actor::Lane(_) | Actor::Feed(_)) == rings {
            add_name(names, name_of(alloc, act.actor)?)?;
        }
    }
    Ok(())
}

/// Adds a name, if it is not among them yet.
#[tactic(auto, using(crate::proofs::NameLemmas::put_in))]
pub(crate) fn add_name(names: &mut IndexSet<String>, name: String) -> Added
    ensures { OnOk result (names_of names.new.keys ≡ with_name (names_of names.old.keys) (string_bytes name)) }
{
    names.insert(name)?;
    Ok(())
}

/// Adds the objects, each of which must have a name that no other column has. The first one's line has this number.
fn add_objects(
    alloc: Global,
    names: &mut IndexSet<String>,
    objects: &[Object<'_>],
    first: usize,
) -> Result<(), Fault>
    requires { first + length objects.now ≤ 33554433 }
    ensures names { OnOk result (names_of names.new.keys ≡ names_of names.old.keys ++ titles_of (map shown_object objects.now)) }
    ensures free { OnOk result (taken_from (names_of names.old.keys) first (map shown_object objects.now) ≡ None) }
    ensures fault { IfErr result (λ fault. (fault.what ≡ Memory)
        ⊎ ((taken_from (names_of names.old.keys) first (map shown_object objects.now) ≡ Some fault.line) × (fault.what ≡ NameTaken))) }
{
    for (at, object) in objects.iter().enumerate() {
        if is_among(names, object.name) {
            return Err(What::NameTaken.at((first + at) as u64));
        }
        add_name(names, String::from_str(alloc, object.name)?)?;
    }
    Ok(())
}

fn rows_of<'a>(
    alloc: Global,
    names: &IndexSet<String>,
    actors: usize,
    acts: &[Act<'a>],
) -> Result<Vec<Row<'a>>, Fault>
    requires { length acts.now ≤ 33554432 }
    ensures rows { IfOk result (λ rows. map shown_row rows.items ≡ map (joined (names_of names.now.keys) actors) (map shown_act acts.now)) }
    ensures fault { IfErr result (λ fault. (fault.what ≡ Memory)
        ⊎ ((fault.what ≡ UnknownName) × (unknown_from (names_of names.now.keys) actors 1 (map shown_act acts.now) ≡ Some fault.line))) }
{
    let mut rows = Vec::new(alloc);
    for (at, act) in acts.iter().enumerate() {
        match row_of(alloc, names, actors, act)? {
            Some(row) => rows.push(row)?,
            None => return Err(What::UnknownName.at((at + 1) as u64)),
        }
    }
    Ok(rows)
}

/// The row of a line, if both its names have columns where they should.
fn row_of<'a>(
    alloc: Global,
    names: &IndexSet<String>,
    actors: usize,
    act: &Act<'a>,
) -> Result<Option<Row<'a>>, AllocError>
    ensures { IfOk result (λ row. MatchOption row
        (arrow_of (names_of names.now.keys) actors (shown_act act.now) ≡ None)
        (λ row. shown_row row ≡ joined (names_of names.now.keys) actors (shown_act act.now))) }
{
    let name = name_of(alloc, act.actor)?;
    let actor = column_of(names, &name);
    let object = column_of(names, act.object);
    let (Some(actor), Some(object)) = (actor, object) else {
        return Ok(None);
    };
    let row = Row {
        act: *act,
        actor,
        object,
    };
    Ok((actor < actors && object >= actors).then_some(row))
}

/// What the column of an actor is called.
fn name_of(alloc: Global, actor: Actor<'_>) -> Result<String, AllocError>
    ensures { IfOk result (λ name. string_bytes name ≡ doer_text (shown_actor actor.entry)) }
{
    match actor {
        Actor::Thread(name) => String::from_str(alloc, name),
        Actor::Lane(number) => format!(in alloc; "lane {number}"),
        Actor::Feed(number) => format!(in alloc; "feed {number}"),
    }
}

/// Whether this is one of the names.
pub(crate) fn is_among(names: &IndexSet<String>, name: &str) -> bool
    ensures { result ≡ is_among (names_of names.now.keys) name.now }
{
    names.contains(name)
}

/// The column of this name.
pub(crate) fn column_of(names: &IndexSet<String>, name: &str) -> Option<usize>
    ensures column { result ≡ column_of (names_of names.now.keys) name.now }
    ensures within { IfSome result (λ column. column < length names.now.keys) }
{
    names.get_index_of(name)
}
