// Laws of the whole query. No code.
#![tactic(auto)]
