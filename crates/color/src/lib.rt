// Colours: CIELAB as three doubles, sRGB as three bytes, the ways between them, and the distance of two.
#![tactic(auto)]

pub mod cielab;
pub mod least;

// A colour in CIELAB.
#[derive(Clone, Copy, Debug, PartialEq)]
pub struct Lab {
    pub l: f64,
    pub a: f64,
    pub b: f64,
}

// A colour in sRGB, a byte for each channel.
#[derive(Clone, Copy, Debug, PartialEq, Eq)]
pub struct Rgb8 {
    pub r: u8,
    pub g: u8,
    pub b: u8,
}
