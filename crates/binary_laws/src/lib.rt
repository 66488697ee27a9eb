// No code: the laws over several crates of the binary protocol.
#![tactic(auto)]
