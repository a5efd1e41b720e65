// The round trips of the mesh file: what was read, written again, is the file; what was written, read again, is the mesh. There is no code here, only theorems.

#![tactic(auto)]
