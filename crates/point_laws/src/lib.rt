// Why unknown fields change no replay; no code.
#![tactic(auto)]
