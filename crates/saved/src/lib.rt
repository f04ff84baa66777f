// What the keeper holds beside its group over any calls, and what it saves: the accepted events of the closed ticks, in book order. No code.
#![tactic(auto)]
