// Laws: a line of the second form with its name exchanged for its number is the old line, byte for byte.
#![tactic(auto)]
