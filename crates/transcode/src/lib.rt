// No code yet: what a translation between two protocols is, and that there and back is the same value.
#![tactic(auto)]
