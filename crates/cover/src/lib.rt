// Walks, tables and distances over a graph: the definitions are in specs/.
#![tactic(auto)]
