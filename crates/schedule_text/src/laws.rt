//! Laws of schedules, each the contract of a function that does nothing.

ghost use Rattle.schedule_text.specs.Laws.{EveryTextHasOneReading, SetupsOfBareMode, SchedulesAreRun, BareSchedulesAreBare};

/// Where the ends run direct mode, a text of at most 16,777,216 octets is a schedule, as its lines
/// say one after the other, or has one first fault: the line that is told breaks the grammar in the
/// way that is told, and no line before it breaks it. What stands after all lines is told at line
/// 1.
pub fn every_text_has_one_reading()
    ensures { EveryTextHasOneReading }
{}

/// The configurations of two ends that meet in bare mode are ones that an end of bare mode takes.
pub fn setups_of_bare_mode()
    ensures { SetupsOfBareMode }
{}

/// What a schedule sets up is run: the ends run its mode, and no end refuses either configuration.
pub fn schedules_are_run()
    ensures { SchedulesAreRun }
{}

/// Where the ends run bare mode alone, each schedule that is read is in bare mode, and its two
/// configurations are ones that an end of bare mode takes.
pub fn bare_schedules_are_bare()
    ensures { BareSchedulesAreBare }
{}
