// A log event on an image.
#![tactic(auto)]

pub mod logging; // logging.rt: the image read, the event, image, output and number written
