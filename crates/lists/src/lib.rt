// Choices by a test, and lists. Definitions and laws only: see specs/.
#![tactic(auto)]
