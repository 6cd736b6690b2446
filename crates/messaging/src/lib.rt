// The handlers and the opening of a table on an image: numbers and slices in, a number and bytes out.
#![tactic(auto)]

pub mod opening; // opening.rt: an empty table written to an image
pub mod messages; // messages.rt: numbers and contents as messages, and the handlers called with them
