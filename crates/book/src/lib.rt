// Document 01's run book. Definitions and laws only: see specs/.
#![tactic(auto)]
