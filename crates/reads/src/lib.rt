// Bytes of an object, read page by page. Definitions and laws only: see specs/.
#![tactic(auto)]
