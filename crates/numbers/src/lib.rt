// The numbers: how many commands each handler has under way, and so who is free.
//
// Of every handler the state keeps the number of waits that ask it and of owings it has, for a multi
// one on each thread. A number stands in one of 128 cells, eight for each of the sixteen rows: a multi
// handler uses its eight, a thread each, and a single one only the first. No wait and no owing is looked
// at to answer whether a handler is free: its row is looked up, and one number is read.
//
// Here stand what an outcome does to the numbers (specs/Numbers.antt), the question by the full walk and
// by the number (specs/Free.antt), and the laws: after every call each number is the count of the full
// walk (proofs/Kept.antt, `counted`), so the answer by the number is the one by the walk
// (proofs/Free.antt, `free-as-walked`). The code stands in room router_free.
#![tactic(auto)]
