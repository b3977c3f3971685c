// Laws only: at weights 1 and 1 the rules are those without weights.
#![tactic(auto)]
