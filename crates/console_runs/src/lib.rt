// An input in whatever parts it comes, and what is printed for it. Definitions and laws only: see specs/.
#![tactic(auto)]
