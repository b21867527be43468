// What it means that a record fits (RULES 13.14 to 13.17): the instructions of `thumb` executed by the manual, and that those of a record that
// fits do what demand 3 asks of them. There is no code here.

#![tactic(auto)]
