// Lists: the few words on lists that the rules are written in, and their laws. No code.
#![tactic(auto)]
