// Theorems about the definitions of the search. There is no code here.
#![tactic(auto)]
