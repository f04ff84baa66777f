// The three demands, each as one proved statement over the definitions that the public calls promise. No code.
#![tactic(auto)]
