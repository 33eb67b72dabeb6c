// The graph file: its definitions are in specs/, their theorems in proofs/.
#![tactic(auto)]
