// What calls do to a group over its history, and what the formula says of the events that they leave behind. No code.
#![tactic(auto)]
