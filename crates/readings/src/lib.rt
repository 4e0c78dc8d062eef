// The bench readings of the calls, computed by the rules. Definitions and laws only.
#![tactic(auto)]
