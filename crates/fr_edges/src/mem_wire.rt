ghost use Rattle.std.specs.Prelude.{◌≡◌, IfOk, None, Some};

use crate::schedule::Schedule;
use crate::wire::{Carried, CarryEnd, Wire, deliver};
use fr_bytes::{Bytes, NoMemory};
use std::alloc::Global;

/// A wire in memory, which tells what it carried. The i-th carry delivers the i-th replacement where
/// there is one, else the reply; the carries whose numbers were given, from 1, are lost.
#[derive(Debug, Drop)]
pub struct MemWire {
    replies: Vec<Option<Bytes>>,
    schedule: Schedule,
    log: Vec<Carried>,
}

impl MemWire {
    ghost use Rattle.fr_edges.specs.Memory.{OpensWire, carried_of, replaced, Loses, Brings};

    /// A wire that carried nothing. It is straight exactly where `fails` is empty and no reply is
    /// replaced. Takes no memory.
    pub fn new(alloc: Global, replies: Vec<Option<Bytes>>, fails: Vec<u32>) -> MemWire
        ensures { OpensWire replies.items fails.items result }
    {
        MemWire {
            replies,
            schedule: Schedule::new(fails),
            log: Vec::new(alloc),
        }
    }

    // What the next carry delivers where it isn't lost.
    fn delivery<'a>(&'a self, reply: &'a [u8]) -> &'a [u8]
        ensures { result.now ≡ replaced self.now.replies.items self.now.schedule.calls reply.now }
    {
        match self.replies.get(self.schedule.calls as usize) {
            Some(Some(other)) => other.as_slice(),
            _ => reply,
        }
    }

    fn lose(&mut self, request: &[u8], reply: &[u8]) -> Result<(), CarryEnd>
        ensures { Loses self.old self.new request.now reply.now result }
    {
        let alloc = *self.log.allocator();
        let entry = lost_entry(alloc, request, reply)?;
        self.log.push(entry)?;
        self.schedule.count_fault();
        Err(CarryEnd::Lost)
    }

    fn bring(&mut self, request: &[u8], reply: &[u8], out: &mut Vec<u8>) -> Result<(), CarryEnd>
        ensures { Brings self.old self.new request.now reply.now out.new.items result }
    {
        let alloc = *self.log.allocator();
        let delivery = self.delivery(reply);
        deliver(delivery, out)?;
        let entry = brought_entry(alloc, request, reply, delivery)?;
        self.log.push(entry)?;
        self.schedule.count_call();
        Ok(())
    }

    /// What it carried, in order.
    pub fn carried(&self) -> &[Carried]
        ensures { result.now ≡ carried_of self.now }
    {
        self.log.as_slice()
    }
}

impl Wire for MemWire {
    ghost use Rattle.fr_edges.specs.Wire.{Carries};
    ghost use Rattle.fr_edges.specs.Memory.{wire_view, Delivered, WireGoes};

    ghost view = { wire_view };

    fn carry(&mut self, request: &[u8], reply: &[u8], out: &mut Vec<u8>) -> Result<(), CarryEnd>
        ensures carries { Carries (wire_view self.old) (wire_view self.new) request.now reply.now out.new.items result }
        ensures exact { Delivered self.old reply.now out.new.items result }
        ensures goes { WireGoes self.old self.new result }
    {
        if self.schedule.next_fails() {
            self.lose(request, reply)
        } else {
            self.bring(request, reply, out)
        }
    }
}

fn bytes_of(alloc: Global, bytes: &[u8]) -> Result<Bytes, NoMemory>
    ensures { IfOk result (λ b. b ≡ bytes.now) }
{
    Ok(Bytes::of(Vec::from_slice(alloc, bytes)?))
}

fn lost_entry(alloc: Global, request: &[u8], reply: &[u8]) -> Result<Carried, NoMemory>
    ensures { IfOk result (λ x. x ≡ record { request = request.now; reply = reply.now; delivered = None }) }
{
    Ok(Carried {
        request: bytes_of(alloc, request)?,
        reply: bytes_of(alloc, reply)?,
        delivered: None,
    })
}

fn brought_entry(
    alloc: Global,
    request: &[u8],
    reply: &[u8],
    out: &[u8],
) -> Result<Carried, NoMemory>
    ensures { IfOk result (λ x. x ≡ record { request = request.now; reply = reply.now; delivered = Some out.now }) }
{
    Ok(Carried {
        request: bytes_of(alloc, request)?,
        reply: bytes_of(alloc, reply)?,
        delivered: Some(bytes_of(alloc, out)?),
    })
}
