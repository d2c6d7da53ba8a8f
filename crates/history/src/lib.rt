// What any list of calls on a fresh session leaves in the shelves: theorems, no code.
#![tactic(auto)]
