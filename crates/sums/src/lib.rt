// No code: document 02, Ask 13, what the sheet adds up to. specs/ states it, of the definitions and of what the call writes; proofs/ proves it.
#![tactic(auto)]
