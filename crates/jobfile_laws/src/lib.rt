// Theorems on the job file: reading what was written, writing what was read, and that no promise leaves two results.

#![tactic(auto)]
