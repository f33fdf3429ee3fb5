// Lists: what every room asks of a list, and the laws of these questions.
//
// The definitions stand in specs/Lists.antt, the laws of buffers and parts in proofs/. They are generic in the
// element, so that a law is written once and cited wherever it is needed.
//
// Where a list is kept newest first, an element's number is how many older ones there are. In an
// array that is filled from the start, this number is the element's index.
#![tactic(auto)]
