// What the session's calls leave in lent slices where the record is laid out flat: definitions and laws. No code.
#![tactic(auto)]
