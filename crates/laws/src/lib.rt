// The laws of the run book: soundness, files, isolation, frames and slots. Definitions and laws only: see specs/.
#![tactic(auto)]
