//! The run over the lines of the input.
use crate::input::{Lines, edit_of, says_nothing};
use crate::print::{Hex, TransferLine};
use crate::tally::Tally;
use frames::performatives::End;
use frames::session::{SessionFrame, SessionFrameBody};
use outbox::edit::Edit;
use outbox::memory::RowMemory;
use outbox::store::Outbox;
use queue::Queue;
use std::io::Read;
use table_keeper::table::TableKeeper;

/// How many frames the wire queue holds.
const WIRE_SLOTS: usize = 128;

/// How many bytes of text, and how many values, row memory holds.
const MEMORY_BYTES: u32 = 4096;

const MEMORY_VALUES: u32 = 256;

/// Reads the input, sends its edits, and prints what went out.
pub(crate) fn run(rt: &HostRuntime) -> anyhow::Result<()> {
    let heap = rt.alloc();
    let mut input = Vec::new(heap);
    rt.stdin().read_to_end(&mut input)?;
    let blank = SessionFrame {
        channel: 0,
        body: SessionFrameBody::End(End { condition: 0 }),
    };
    let mut slots = vec![in heap; blank; WIRE_SLOTS]?;
    let wire = Queue::new(slots.as_mut_slice());
    let memory = RowMemory::new(heap, MEMORY_BYTES, MEMORY_VALUES)?;
    let mut replay = Replay {
        rt,
        outbox: Outbox::new(TableKeeper::new(heap)?, memory),
        wire,
        tally: Tally::default(),
    };
    for (i, line) in Lines::new(&input).enumerate() {
        // Asked here: a call answers with a result, and to make one takes longer than a line that says nothing.
        if !says_nothing(line) {
            replay.send_line(i + 1, line)?;
        }
    }
    replay.print_wire()?;
    replay.print_rows()?;
    rt.println(replay.tally)?;
    Ok(())
}

/// What sends the lines' edits and prints what went out.
#[derive(Drop)]
struct Replay<'rt, 'slots> {
    rt: &'rt HostRuntime,
    outbox: Outbox<TableKeeper>,
    wire: Queue<'slots, SessionFrame>,
    tally: Tally,
}

impl Replay<'_, '_> {
    /// Sends the edit of one line, or tells why the line is none or is refused.
    fn send_line(&mut self, number: usize, line: &[u8]) -> anyhow::Result<()> {
        match edit_of(line) {
            Ok(edit) => self.send(number, edit),
            Err(why) => {
                println!(self.rt; "line {number}: {why}")?;
                Ok(())
            }
        }
    }

    /// Sends an edit, or tells why it is refused.
    fn send(&mut self, number: usize, edit: Edit<'_>) -> anyhow::Result<()> {
        match self.outbox.send(edit, &mut self.wire) {
            Ok(()) => self.tally.add_sent(),
            Err(why) => {
                println!(self.rt; "line {number}: refused, {why}")?;
                self.tally.add_refused();
            }
        }
        Ok(())
    }

    /// Takes every frame off the wire queue and prints it with the text that it carries.
    fn print_wire(&mut self) -> anyhow::Result<()> {
        while let Some(frame) = self.wire.take() {
            if let SessionFrameBody::Transfer {
                performative,
                payload,
            } = frame.body
            {
                self.rt.println(TransferLine {
                    channel: frame.channel,
                    transfer: performative,
                    payload,
                    text: self.outbox.memory.read(payload).unwrap_or(b""),
                })?;
            }
        }
        Ok(())
    }

    /// Prints how each row stands.
    fn print_rows(&self) -> anyhow::Result<()> {
        for value in self.outbox.memory.values() {
            let row = value.row;
            let link = row.link().get();
            let tag = row.tag();
            let hex = Hex(tag.as_slice());
            match self.outbox.keeper.state(row) {
                Some(state) => println!(self.rt;
                    "row {link}:{hex} pending state={}",
                    state.number()
                )?,
                None => println!(self.rt; "row {link}:{hex} settled")?,
            }
        }
        Ok(())
    }
}
