// The layout rules of document 01 are definitions, in specs/, and what follows from them is in proofs/. There is no code here but one number:
// the words of an event record, `event_words` of specs/Call.

#![tactic(auto)]

pub const EVENT_WORDS: usize = 3;
