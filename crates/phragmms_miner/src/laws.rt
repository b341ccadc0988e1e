//! What holds of runs. Each law is the contract of a function that does nothing.
ghost use Rattle.phragmms_miner.specs.Laws.{AnyRun, OneRun};

/// Every election has exactly one run of the rule: each pick, each round of balancing and each
/// amount is determined by the election and the number of rounds.
pub fn every_election_has_one_run()
    ensures one { OneRun }
    ensures any { AnyRun }
{}
