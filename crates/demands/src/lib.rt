// What is claimed of the whole: the three demands (RULES 10), and examples (RULES 4.20, 5.11, 5.12, 8.13). There is no code here.

#![tactic(auto)]
