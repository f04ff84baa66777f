// Wrong gates, and that the demands shut them out. No code.
#![tactic(auto)]
