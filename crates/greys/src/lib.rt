// Greys and levels, and what a volume in f32 is converted to, document 02 (vii). What is defined stands in specs, what follows in proofs.
#![tactic(auto)]

// "either as a fixed grey or as halfway between an air grey and a material grey": the grey, or air and material.
#[derive(Clone, Copy, Debug, PartialEq)]
pub enum Level {
    Fixed(f32),
    Halfway(f32, f32),
}
