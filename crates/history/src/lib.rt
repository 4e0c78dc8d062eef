// Demand 3 over any machine that has its laws. Definitions and laws only.
#![tactic(auto)]
