//! Laws of runs, each the contract of a function that does nothing.

ghost use Rattle.codec_runs.specs.DirectLaws.{DirectRunsKeepLaws};
ghost use Rattle.codec_runs.specs.ReliableLaws.{ReliableRunsKeepLaws};
ghost use Rattle.replays.specs.Runs.{OneTranscript};

use association_duo::association_line_layer::{one_call, one_feed};
use bare_duo::one_run;
use codec_runs::{direct_runs_keep_laws, reliable_runs_keep_laws};

/// A schedule has one transcript, whoever runs it.
pub fn one_transcript()
    ensures { OneTranscript }
{
    one_run();
    one_feed();
    one_call();
}

/// Every run of two ends of an association keeps all laws of its mode.
pub(crate) fn associated_runs_keep_laws()
    ensures direct { DirectRunsKeepLaws }
    ensures reliable { ReliableRunsKeepLaws }
{
    direct_runs_keep_laws();
    reliable_runs_keep_laws();
}
