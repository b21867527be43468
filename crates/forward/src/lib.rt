// Demand 3: what a prologue, a body and an epilogue do, forwards, and that one frame finds the caller. There is no code here.

#![tactic(auto)]
