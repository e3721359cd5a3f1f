// The commissioning cases, true of the rules.
#![tactic(auto)]

ghost use Rattle.cases.specs.Entry.{AllHold};
ghost use Rattle.cases.specs.Cases.{commissioning};
ghost use Rattle.cases.specs.Premises.{PremisesMet};
ghost use Rattle.cases.specs.Trial.{Agree};
ghost use Rattle.cases.specs.Trials.{trials};

// Its contract is that every entry of the table holds.
pub fn commissioned()
    ensures { AllHold commissioning }
{}

// Its contract is that the rules agree with a second evaluator on every file of a table.
pub fn trials_agree()
    ensures { Agree trials }
{}

// Its contract is that the claims on every list of calls are not empty, and shows the flicker that certificates are for.
pub fn premises_met()
    ensures { PremisesMet }
{}
