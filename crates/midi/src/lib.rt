// What a Standard MIDI File is to this project: its definitions in specs/, their laws in proofs/, no code.
#![tactic(auto)]
