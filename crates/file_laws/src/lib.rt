// What holds of the strict file's definitions. No code: see specs/.
#![tactic(auto)]
