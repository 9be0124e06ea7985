// Condition 3 of acceptance over runs of any board and its collector: specs/Demand.antt says it, and specs/Theorem.antt proves it of each board that has
// the laws of specs/Laws.antt.
#![tactic(auto)]
