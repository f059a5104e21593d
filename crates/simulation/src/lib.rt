// Simulations by joint steps, rules that choose moves, and what a plan is: definitions and laws, no code.
#![tactic(auto)]
