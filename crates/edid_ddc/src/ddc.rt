//! The bytes of an EDID as a reader on the DDC sees them.
ghost use Rattle.std.specs.Prelude.{◌≡◌, ◌↔◌, ◌+◌, ◌%◌, Some, IsTrue, IsOk, IfOk, IfErr, OnOk, OnErr, EachIndex, length, slice_index, ◌*◌};
ghost use Rattle.edid_core.specs.Bytes.{edid_bytes};

use crate::error::DdcError;
use arrayvec::ArrayVec;
use edid_core::{Edid, edid_to_bytes};
use std::marker::Model;

/// An EDID of one block to four, read by a segment pointer and an offset (E-DDC, section 2.2). A
/// segment has 256 bytes; those that are missing in a segment with a block read FF.
#[derive(Drop)]
pub struct Ddc {
    bytes: ArrayVec<u8, 512>,
    segment: u8,
    offset: u8,
}

impl Model for Ddc {
    ghost use Rattle.std.specs.Prelude.{IsTrue};
    ghost use Rattle.edid_core.specs.Bytes.{has_length};
    ghost use Rattle.edid_ddc.specs.Bus.{Bus, has_segment};

    ghost Value = { Bus };

    ghost view = { λ d. record { bytes = d.bytes.items; segment = d.segment; offset = d.offset } };

    ghost invariant = { λ d. IsTrue (has_length d.bytes.items) × IsTrue (has_segment d.bytes.items d.segment) };
}

impl Ddc {
    ghost use Rattle.edid_core.specs.Bytes.{has_length};
    ghost use Rattle.edid_ddc.specs.Bus.{Bus, first_bus, byte_at, has_segment};

    /// The DDC of an EDID, at segment 0 and offset 0.
    pub fn new(edid: &Edid) -> Self
        ensures { result ≡ first_bus (edid_bytes edid.now) }
    {
        Ddc {
            bytes: edid_to_bytes(edid),
            segment: 0,
            offset: 0,
        }
    }

    /// The DDC of 128, 256, 384 or 512 bytes, at segment 0 and offset 0.
    pub fn over(bytes: &[u8]) -> Result<Self, DdcError>
        ensures ok { IfOk result (λ d. d ≡ first_bus bytes.now) }
        ensures accepted { IsOk result ↔ IsTrue (has_length bytes.now) }
        ensures refused { IfErr result (λ e. e ≡ DdcError.Length) }
    {
        if bytes.is_empty() || bytes.len() > 512 || bytes.len() % 128 != 0 {
            return Err(DdcError::Length);
        }
        let mut kept = ArrayVec::new();
        let _ = kept.try_extend_from_slice(bytes);
        Ok(Ddc {
            bytes: kept,
            segment: 0,
            offset: 0,
        })
    }

    /// Sets the segment pointer. A segment without a block is not acknowledged.
    pub fn segment(&mut self, segment: u8) -> Result<(), DdcError>
        ensures ok { OnOk result (self.new ≡ record self.old { segment = segment }) }
        ensures err { OnErr result (self.new ≡ self.old) }
        ensures accepted { IsOk result ↔ IsTrue (has_segment self.old.bytes segment) }
        ensures refused { IfErr result (λ e. e ≡ DdcError.NoAck) }
    {
        if usize::from(segment) * 256 >= self.bytes.len() {
            return Err(DdcError::NoAck);
        }
        self.segment = segment;
        Ok(())
    }

    /// Sets the offset at which the next read begins.
    pub fn offset(&mut self, offset: u8)
        ensures { self.new ≡ record self.old { offset = offset } }
    {
        self.offset = offset;
    }

    /// The byte at an offset of the segment.
    fn byte(&self, offset: u8) -> u8
        ensures { byte_at self.now.bytes self.now.segment offset ≡ Some result }
    {
        let place = self.segment as usize * 256 + offset as usize;
        self.bytes.as_slice().get(place).copied().unwrap_or(0xff)
    }

    /// Reads the next bytes, and moves the offset past them. After offset 255 comes offset 0 of
    /// the same segment.
    pub fn read(&mut self, out: &mut [u8])
        ensures bytes { EachIndex out.new (λ k. byte_at self.old.bytes self.old.segment ((self.old.offset + k) % 256) ≡ Some (slice_index out.new k)) }
        ensures after { self.new ≡ record self.old { offset = (self.old.offset + length out.old) % 256 } }
    {
        let mut next = self.offset;
        for place in out.iter_mut() {
            *place = self.byte(next);
            next = next.wrapping_add(1);
        }
        self.offset = next;
    }

    /// Ends the access: the segment pointer goes back to 0, and the offset stays.
    pub fn stop(&mut self)
        ensures { self.new ≡ record self.old { segment = 0 } }
    {
        self.segment = 0;
    }
}
