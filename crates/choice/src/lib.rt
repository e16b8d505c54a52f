// A choice by a test is a definition, in specs/, and its laws are in proofs/. There is no code here: this number, the ways of a choice,
// keeps the library from being empty.

#![tactic(auto)]

pub const WAYS: usize = 2;
