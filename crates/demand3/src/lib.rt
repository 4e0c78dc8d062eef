// Demand 3 over the rules' engine. Definitions and laws only.
#![tactic(auto)]
