// Document 02, T-05: one request with all its markers over a field of Type B cards, as rules: the run, the fields that it takes, the claim and its
// proof. There is no code here; crate slots runs it.
#![tactic(auto)]
