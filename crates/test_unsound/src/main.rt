// Shows the refusals by their numbers. Each line is a state: for each clause of document 01's sentence `A state is sound when ..`, in its
// order, and of what document 02 adds to it, states that just meet it and states that break it. That the test which the calls run says
// just these clauses is a theorem (statement, sound_iff), and so is what a refusal leaves alone; nothing that calls can do from power-up
// makes a state that is not sound, so that only a program like this shows one.
//
// A line has the refusals of ten calls: a tick; pin 2 at level 0; byte 13; pin 9 at level 7; pin 2 at level 7; byte 13 with a buffer of
// 23 bytes; a thousand ticks at once; 1,000,001 ticks at once, one more than a call takes (document 02, 1/12); a tick with a buffer of 23
// bytes; 1,000,001 ticks with one, which is the sooner refused (2/12). A sound state is refused only for what the calls hand in,
// `0 0 0 2 3 1 0 5 1 1`; any other for itself, before anything that is handed in, `4 4 4 4 4 4 4 4 4 4`.
//
//   states   the sound states that the cases start from, and one part of a state replaced
//   show     a case's line
//   ranges, programs, links: the cases, by the clauses
#![tactic(auto)]

mod links;
mod programs;
mod ranges;
mod show;
mod states;

use std::io;

fn main(rt: HostRuntime) -> io::Result<()> {
    let mut output = rt.stdout();
    ranges::fields(&mut output)?;
    ranges::data(&mut output)?;
    ranges::lines(&mut output)?;
    ranges::numbers(&mut output)?;
    programs::loops(&mut output)?;
    programs::visits(&mut output)?;
    programs::pauses(&mut output)?;
    programs::stops(&mut output)?;
    links::limits(&mut output)?;
    links::lines(&mut output)?;
    links::packets(&mut output)
}
