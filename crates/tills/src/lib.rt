// Two tills, one router: two desks that run on different threads do not disturb one another.
//
// It is shown for two steps, each a message or a give up, in any view: whichever comes first, each has
// the outcome and the bytes that it would have alone, and the same trees, open marks and owings are
// left. The premise says which handlers the two may share, and that neither opens or closes one.
// specs/Tills.antt has premise and conclusion in the request's words, and specs/Calls.antt the same of
// two calls of the code. specs/Desks.antt goes on to two whole lists of steps, interleaved in any way:
// each desk sees what it would see alone.
//
// Less than that premise is enough (specs/Less.antt), but none of the premise's three parts can be left
// out whole: the threads, who is shared, who is opened or closed (specs/Needed.antt). And no later call
// can tell the two orders apart (specs/Later.antt).
//
// There is no code here. What is used of the rules stands with them: how far a call sees, and how far
// its outcome reaches (rules, proofs/Apart.antt).
#![tactic(auto)]
