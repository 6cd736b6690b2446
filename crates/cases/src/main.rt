// Runs the cases of the rules through the code and prints the answers; the file stdout has what the rules say.
#![tactic(auto)]

mod text; // text.rt: how sets, batches, decisions, slots and records are printed
mod sets; // sets.rt: union and identify
mod choices; // choices.rt: the fast decision and the recovery choices
mod messages; // messages.rt: the handlers
mod running; // running.rt: the attempt
mod log_events; // log_events.rt: log events

use std::io;

fn main(rt: HostRuntime) -> io::Result<()> {
    sets::unions(&rt)?;
    sets::identifies(&rt)?;
    choices::fast_decisions(&rt)?;
    choices::refusals(&rt)?;
    choices::recoveries(&rt)?;
    messages::pre_accepts(&rt)?;
    messages::prepares(&rt)?;
    messages::edges(&rt)?;
    messages::marks(&rt)?;
    messages::sequences(&rt)?;
    messages::opens(&rt)?;
    running::attempts(&rt)?;
    log_events::answers(&rt)?;
    log_events::bars(&rt)
}
