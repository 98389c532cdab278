// Document 02, T-05: "A transit customer has both kinds." Cards of Type A are silent on every frame of Type B, cards of Type B on every frame of Type A.
// There is no code here: specs/ states and proves both over the cards' rules.
#![tactic(auto)]
