// The cases that the specification marks for proof stand in specs/Table.antt, as one table of theorems about the definitions that the
// contracts cite. There is no code here.
#![tactic(auto)]
