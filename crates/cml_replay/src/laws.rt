//! Laws of the definitions, each the contract of a function that does nothing.
ghost use Rattle.cml_replay.specs.{SchedulesAreOne, ScriptsHaveASchedule, StalledThreadsWait, SomeThreadWaits, SomeThreadIsStuck};
ghost use Rattle.cml_replay.specs.{ReportsTellWhatIsLeft};

/// Shows that under a limit a script has at most one history, and it ends in one way.
pub fn schedules_are_one()
    ensures { SchedulesAreOne }
{}

/// Shows that under each limit a script without rings has a history, and it ends in some way.
pub fn scripts_have_a_schedule()
    ensures { ScriptsHaveASchedule }
{}

/// Shows that if a script's history ends stalled, each thread with steps left waits at its next one, and there is such a
/// thread. There is one too if no thread could go on after a run with steps left.
pub fn stalled_threads_wait()
    ensures each { StalledThreadsWait }
    ensures some { SomeThreadWaits }
    ensures run { SomeThreadIsStuck }
{}

/// Shows that what a replay's report says is left is what its schedule has left.
pub fn reports_tell_what_is_left()
    ensures { ReportsTellWhatIsLeft }
{}
