// The text that the trace program prints, into a lent byte list: a line for an event, and the line of the bars.
#![tactic(auto)]

pub mod bars; // bars.rt: the line of the bars
pub mod line; // line.rt: the line of an event
mod text; // text.rt: a text that is written piece by piece: bytes, words, and numbers in decimal
mod words; // words.rt: what a call answers
