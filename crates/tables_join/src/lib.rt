// The rules' tables, pairs and session as an instance of the join. No code.
#![tactic(auto)]
