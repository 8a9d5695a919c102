//! The law of answers, as the contract of a function that does nothing.

ghost use Rattle.osi_commands.specs.Laws.{OneAnswer};

use replays::one_transcript;
use trace_text::one_trace;

/// Words have one answer over told files that don't fail: so a beginning that was written before
/// writing failed is one of what a sink that doesn't fail is given.
pub fn one_answer()
    ensures { OneAnswer }
{
    one_transcript();
    one_trace();
}
