// Numbers that are written as text and read back: no code, theorems alone (specs/Back.antt).
#![tactic(auto)]
