// The worked dates and frames of document 01, as one statement over a list; there is no code here.
#![tactic(auto)]
