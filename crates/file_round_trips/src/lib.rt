// What is written reads back, and what is read is written back: theorems over the definitions of reading and writing. No code.
#![tactic(auto)]
