// Laws that every crate's proofs share; there is no code here.
#![tactic(auto)]
