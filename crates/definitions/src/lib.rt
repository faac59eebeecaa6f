// Document 01 as definitions is in specs/, and what is proved of them in proofs/. There is no code here.
#![tactic(auto)]
