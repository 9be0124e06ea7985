// What the specification and the manual say of events, of rows of events, and of what an event leaves as it was: theorems about the definitions that the
// contracts of board cite. There is no code here.
#![tactic(auto)]
