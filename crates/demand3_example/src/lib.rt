// A history with rebuilds, computed by the rules. Definitions and laws only.
#![tactic(auto)]
