// The three demands: what an outsider opens first.
//
// specs/Demands.antt has all three in one record, and proofs/Demands.antt has it as one theorem.
// Demand 1, one result for every input: specs/One.antt, a line for each contract that is a relation.
// Demand 2, the rules themselves: specs/Desk.antt has the sums at the desk in the page's order, and
// specs/Cheats.antt the builds that the contracts stop, though they look right for a while. Of the
// data store specs/Stored.antt says what a run is: it answers and holds what a plain list of files does.
// Demand 3, of every run of the code: specs/Used.antt says what a run is, from any public start. What
// it keeps is the promise of room `history`.
//
// There is no code here: each room proves its own part, and this one cites them.
#![tactic(auto)]
