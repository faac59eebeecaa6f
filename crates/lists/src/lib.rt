// Laws of tests, numbers, lists, sums and cuts that several crates share are in proofs/. There is no code here.
#![tactic(auto)]
