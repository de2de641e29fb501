//! Laws of what is printed, each the contract of a function that does nothing.

ghost use Rattle.engine.specs.Laws.{SimulationsAreOne, StreamsAreDraws};

/// `stream` prints what scripts draw: number `i`, from 0, is the draw of the strand `i` ranks later, under the same
/// seed or list and with as many rounds, in any script that has this strand. That holds in a run of any depth that the
/// strand is within, and in a replay of it, also after a fault.
#[tactic(auto, using(crate::proofs::LawLemmas::streams_are_draws))]
pub fn streams_are_draws()
    ensures { StreamsAreDraws }
{}

/// A simulation has one report: the worker in it depends on the script, coefficients, limits, number of workers and the
/// number that picks the steps, and on nothing else.
pub fn simulations_are_one()
    ensures { SimulationsAreOne }
{}
