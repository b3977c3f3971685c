// Demand 3: its statement, its proof over the rules, and what its parts come to. No code.
#![tactic(auto)]
