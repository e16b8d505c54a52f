// The step function that the engine is held to is a definition, in specs/, and proofs/ has that it ends where the layout rules end.
// There is no code here but a number for those who keep what waits: entries never pass 1,023 (proofs/Bounds), so that there is a place for
// each in

#![tactic(auto)]

pub const PLACES: usize = 1024;
