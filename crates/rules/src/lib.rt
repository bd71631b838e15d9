// The rules of a request are definitions alone: see specs/.
#![tactic(auto)]
