// A work request as it is delivered: what its record says, with the limits that the record's tests have shown. Definitions: specs/Request.antt, specs/Deliver.antt, specs/Run.antt.
ghost use Rattle.std.specs.Prelude.{◌≡◌, ◌≤◌, true, false, length};
ghost use Rattle.tables.specs.Records.{is_inline};
ghost use Rattle.tables.specs.Limits.{most_sges, most_inline};
ghost use Rattle.delivery.specs.Deliver.{is_single, total_by};
ghost use Rattle.delivery.specs.Run.{request_by};

use crate::meet;
use dma::permit;
use tables::limits::INLINE_FLAG;
use tables::{SendRecord, Sge};

// The head of a send record, its entries, and its inline bytes, with the limits of their numbers. Nobody looks at the entries of an inline request.
#[derive(Clone, Copy)]
pub struct WorkRequest<'a> {
    pub head: SendRecord,
    pub sges: &'a [Sge],
    pub inline: &'a [u8],
    ghost few: { is_inline head ≡ false → head.count ≤ most_sges },
    ghost short: { is_inline head ≡ true → length inline.now ≤ most_inline },
    ghost listed: { is_inline head ≡ false → length sges.now ≡ head.count },
}

impl<'a> WorkRequest<'a> {
    // The request of a head that has passed its tests, and of the first of a record's entries, as many as the head counts.
    pub fn new(head: SendRecord, sges: &'a [Sge; 4], inline: &'a [u8]) -> Self
        requires few { is_inline head ≡ false → head.count ≤ most_sges }
        requires short { is_inline head ≡ true → length inline.now ≤ most_inline }
        ensures same_head { result.head ≡ head }
        ensures asks { request_by result.head result.sges.now result.inline.now ≡ request_by head sges.now inline.now }
    {
        let n = (head.count as usize).min(4);
        WorkRequest {
            head,
            sges: &sges[..n],
            inline,
        }
    }

    pub fn is_inline(&self) -> bool
        ensures { result ≡ is_inline self.now.head }
    {
        is_inline(self.head)
    }

    // Whether it is a write or a read of one entry, which takes no receive.
    pub fn is_single(&self) -> bool
        ensures { result ≡ is_single self.now.head }
    {
        is_single(self.head)
    }

    // The number of bytes of the message.
    pub fn total(&self) -> u64
        ensures { result ≡ total_by self.now.head self.now.sges.now self.now.inline.now }
    {
        let sges = self.sges;
        let inline = self.inline;
        total_of(self.head, sges, inline)
    }
}

fn is_inline(s: SendRecord) -> bool
    ensures { result ≡ is_inline s }
{
    s.flags & INLINE_FLAG != 0
}

// Whether a request is a write or a read of one entry, which takes no receive.
pub fn is_single(s: SendRecord) -> bool
    ensures { result ≡ is_single s }
{
    !is_inline(s) & (s.count == 1) & !meet::takes_receive(s.opcode)
}

// The number of bytes of a request's message, whose entries are the first that it counts.
pub fn total_of(s: SendRecord, sges: &[Sge], inline: &[u8]) -> u64
    requires { is_inline s ≡ false → (s.count ≤ length sges.now) × (s.count ≤ most_sges) }
    ensures { result ≡ total_by s sges.now inline.now }
{
    if is_inline(s) {
        inline.len() as u64
    } else {
        permit::sges_total(&sges[..s.count as usize])
    }
}
