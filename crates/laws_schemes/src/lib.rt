// Catmull-Clark, Loop and sqrt3 keep the laws of a scheme, so what laws_call says of calls holds of theirs.

#![tactic(auto)]
