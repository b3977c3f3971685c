// Laws of the rules that hold of every record, not only of those that the calls make. No code.
#![tactic(auto)]
