// Chains of anchors over a graph: the definitions are in specs/.
#![tactic(auto)]
