// Which names a checked tree enters, and in which tables: kind by kind, in the order of the script.
#![tactic(auto)]

ghost use Rattle.scan.specs.Laws.{RunLaws};

pub mod context;
mod read;

// The laws of runs.
pub fn run_laws()
    ensures { RunLaws }
{}
