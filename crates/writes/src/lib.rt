// A write over many pages, page after page, in a store and a pool inside a call. Definitions and laws only: see specs/.
#![tactic(auto)]
