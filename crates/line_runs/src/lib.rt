// Lists of lines, and what is printed for them. Definitions and laws only: see specs/.
#![tactic(auto)]
