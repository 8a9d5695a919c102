//! The law of traces, as the contract of a function that does nothing.

ghost use Rattle.trace_text.specs.Laws.{OneTrace};

/// A recorded dialogue has one trace at most by the same tables.
pub fn one_trace()
    ensures { OneTrace }
{}
