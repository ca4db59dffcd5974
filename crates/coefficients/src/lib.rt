// The definitions of the product (specs/) and the proof of the law over books (proofs/). There is no code here: the bench is
// written against these definitions, and its making carries the law.
#![tactic(auto)]
