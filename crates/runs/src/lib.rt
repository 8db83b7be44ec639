// Lists of calls, and demand 3 of them. Definitions and laws only: see specs/.
#![tactic(auto)]
