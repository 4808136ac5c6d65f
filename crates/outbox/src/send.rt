//! The outbox, and the sending of an edit.
ghost use Rattle.std.specs.Prelude.{◌≡◌};
ghost use Rattle.std.specs.Result.{result_err};
ghost use Rattle.outbox.specs.Sending.{transfer_of};
ghost use Rattle.outbox.specs.Outboxes.{Answered, refusal};

use crate::edit::{Edit, EditError};
use crate::memory::RowMemory;
use crate::store::Outbox;
use definitions::numbers::{DeliveryState, Handle};
use frames::performatives::Transfer;
use frames::session::{Payload, SessionFrame, SessionFrameBody};
use queue::Queue;
use rows::keeper::Keeper;
use rows::row::Row;

impl<K: Keeper> Outbox<K> {
    /// An outbox that has sent nothing; delivery ids begin at 0.
    pub fn new(keeper: K, memory: RowMemory) -> Outbox<K>
        ensures { (result.keeper ≡ keeper) × (result.memory ≡ memory) × (result.next_delivery_id ≡ 0) }
    {
        Outbox {
            keeper,
            memory,
            next_delivery_id: 0,
        }
    }

    /// Writes the new value into row memory, pledges the row and puts the transfer that carries the value
    /// on the wire queue; or refuses, and changes nothing.
    pub fn send(
        &mut self,
        edit: Edit<'_>,
        wire: &mut Queue<'_, SessionFrame>,
    ) -> Result<(), EditError>
        ensures { Answered K.Keeper.stands self.old edit.entry wire.old result self.new wire.new }
    {
        self.check(edit, wire.free())?;
        // Nothing that the check lets through is refused below.
        self.keeper.pledge(edit.row)?;
        let payload = self
            .memory
            .write(edit.row, edit.becomes)
            .ok_or(EditError::MemoryFull)?;
        wire.put(transfer(edit.row, payload, self.next_delivery_id))?;
        self.next_delivery_id = self.next_delivery_id.wrapping_add(1);
        Ok(())
    }

    /// Whether an edit would be sent, where the wire queue has `room` free slots.
    fn check(&self, edit: Edit<'_>, room: usize) -> Result<(), EditError>
        ensures { result_err result ≡ refusal K.Keeper.stands self.now edit.entry room }
    {
        if self.memory.differs(edit.row, edit.was) {
            return Err(EditError::ValueDiffers);
        }
        self.keeper.ask(edit.row).admit(edit.row.link())?;
        if room == 0 {
            return Err(EditError::WireFull);
        }
        self.memory
            .room_for(edit.becomes.len())
            .ok_or(EditError::MemoryFull)?;
        Ok(())
    }
}

/// The transfer that carries a row's value: the first and only one of its delivery, unsettled.
fn transfer(row: Row, payload: Payload, delivery_id: u32) -> SessionFrame
    ensures { result ≡ transfer_of row payload delivery_id }
{
    let performative = Transfer {
        // No `From`: that a handle equals a link's number is a rule of the outbox alone.
        handle: Handle(u32::from(row.link().get())),
        delivery_id: Some(delivery_id),
        delivery_tag: Some(row.tag()),
        message_format: None,
        settled: Some(false),
        more: false,
        rcv_settle_mode: None,
        state: DeliveryState::None,
        resume: false,
        aborted: false,
        batchable: false,
    };
    SessionFrame {
        channel: 0,
        body: SessionFrameBody::Transfer {
            performative,
            payload,
        },
    }
}
