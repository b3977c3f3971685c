// What wrong rules break of demand 3. No code.
#![tactic(auto)]
