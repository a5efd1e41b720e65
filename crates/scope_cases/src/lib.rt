// Theorems by computation on the definitions of document 01: see specs/.

#![tactic(auto)]
