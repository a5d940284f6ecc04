use vf_base::{Place, Text};
use vf_fours::Fours;

/// An identifier and the place of its token (clause 3.7).
#[derive(Drop)]
pub struct Name {
    pub text: Text,
    pub place: Place,
}

/// A number and the place of its token (clause 3.5).
#[derive(Clone, Copy, Debug)]
pub struct Number {
    pub value: Fours,
    pub place: Place,
}

/// The bytes that a string stands for, and the place of its token (clause 3.6).
#[derive(Drop)]
pub struct Quoted {
    pub text: Text,
    pub place: Place,
}
