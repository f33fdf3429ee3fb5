// The data store as a plain list (section 11): files by rising identifier, each a list of records, oldest first.
//
// There is no code here. specs/Files.antt says what each of the nine commands does to the list and
// which response code it has, in the words and the order of TAPA's tables and of the house rules.
// It knows no slot, no place and no index, so that a reader can hold it against the tables.
// specs/Asked.antt says what a message's data part asks, and what the response's data are.
//
// specs/Sound.antt is the law that every store keeps, proofs/Sounds.antt that every command keeps
// it. Rooms record_commands, file_commands and store prove that the code does to its book and its
// lent area what is said here of the list.
#![tactic(auto)]
