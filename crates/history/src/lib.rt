// How far the router's promise reaches: what every history of calls shows.
//
// A history lists the calls since the fresh router, each with its outcome and with what went out, the
// newest first. Which commands are open, and which are owed, is defined from it alone. It is shown
// here, for any table and any calls, that the router's waits are the open commands and its owings the
// owed ones, that each command is answered or given up at most once, that the reply went to its asker
// with its thread, and that the totals balance. Under the page's three premises about devices, no
// response ends another command than the one that it replies to.
//
// The old list of rules, which had a rule f, is shown to give the same histories (specs/Old.antt).
//
// There is no code here, and none below: it speaks of the rules alone. specs/Promise.antt says it in
// one record; room `demands` has it of every run of the code.
#![tactic(auto)]
