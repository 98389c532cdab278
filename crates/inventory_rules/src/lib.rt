// Document 02, T-10: rounds of an inventory over a field of tags, on the rules of tag and reader: no code.
#![tactic(auto)]
