// The rules, run on all tiny tables. No code.
#![tactic(auto)]
