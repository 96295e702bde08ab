//! What the definitions say of small files, computed, beside bytes that were written down from outside.
//!
//! There is no running code here: `proofs/` has a lemma for each file, proved by computing, from the bytes of files to documents, to the
//! sections after, to the bytes that are put, and to a refusal. So a definition that reads well and says something else shows here.
#![tactic(auto)]
