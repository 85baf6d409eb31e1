// No code: the cases that 01 marks with *, shown to follow from the definitions.
#![tactic(auto)]
