// Ranges of pages, cuts, tables of ranges. Definitions and laws only: see specs/.
#![tactic(auto)]
