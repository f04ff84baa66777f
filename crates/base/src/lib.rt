// What every crate above cites and none of them owns: the first place where a test holds, and the rules that answer a branch. No code.
#![tactic(auto)]
