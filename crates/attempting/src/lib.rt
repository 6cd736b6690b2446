// The attempt on an image.
#![tactic(auto)]

pub mod attempting; // attempting.rt: the image read, the attempt, image and number written
