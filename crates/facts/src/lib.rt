// Document 01's twelve facts: specs/Facts.antt has them as rows of one table, and proofs/Held.antt
// proves them by one claim. There is no code: a fact speaks of the definitions that the contracts of
// other crates cite, so that it holds of what their functions answer.
#![tactic(auto)]
