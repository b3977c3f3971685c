// Join: what two ranked tables, a test and a reading of both say of the highest sums, over any rows. No code.
#![tactic(auto)]
