// The starred cases of document 01: the list is in specs/, that every case holds of the definitions is in proofs/.
#![tactic(auto)]
