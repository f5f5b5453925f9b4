// No code: the demands of documents 01 and 02 about the public calls, and their theorems. specs/ states them, proofs/ proves them.
#![tactic(auto)]
