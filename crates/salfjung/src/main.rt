//! Sends edited rows as AMQP transfers and prints what went out.
//!
//! The program reads edits from standard input, one a line, and tells of each line that cannot be read
//! and of each edit that is refused, with its line number. At the end it prints every frame on the wire
//! queue, how each row stands, and how many edits there were.
//!
//! What the program decides is decided in the crates `edit_lines` and `outbox`. Here are the lines of the
//! input and what each says (`input`), the run over them (`replay`), the count of the edits (`tally`) and how
//! things look in print (`print`).

#![tactic(auto)]

mod input;
mod print;
mod replay;
mod tally;

fn main(rt: HostRuntime) -> anyhow::Result<()> {
    replay::run(&rt)
}
