// What the data sheet says of a latched count over many steps (manual, chapter 19, "Counter Latch Command"): theorems about the definitions that the
// contracts of timer cite. There is no code here.
#![tactic(auto)]
