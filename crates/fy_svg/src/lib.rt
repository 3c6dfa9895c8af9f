//! A journal as a picture: one SVG document. What its bands and glyphs stand for is `fy_picture`'s;
//! here they get a place and a colour.
#![tactic(auto)]

mod bands;
mod drawing;
mod frame;
mod glyphs;
mod keepers;
mod lanes;
mod layout;
mod marks;
mod otherwise;
mod pieces;
mod policies;
mod sheet;
mod ups;
mod words;

pub use drawing::{Drawing, svg};
