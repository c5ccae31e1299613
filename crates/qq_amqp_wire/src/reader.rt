//! A reader of frames that come in pieces.
ghost use Rattle.std.specs.Prelude.{◌≡◌, ◌≤◌, ℕ, List, Ok, Err, Some, None, drop, length, vec_len, IfOk, IfErr, IfSome, IfNone, OnOk, OnErr, IsOkUnless};
ghost use Rattle.qq_base.specs.Fields.{AreBytes};
ghost use Rattle.qq_fields.specs.Reading.{Gives};
ghost use Rattle.qq_amqp_wire.specs.Arguments.{memory_of};
ghost use Rattle.qq_amqp_wire.specs.Grammar.{HasFault, IsRead};
ghost use Rattle.qq_amqp_wire.specs.Handing.{HandsOut, Waits, StopsAt};
ghost use Rattle.qq_amqp_wire.specs.Input.{Input, fresh, fed, next, left_by};
ghost use Rattle.qq_amqp_wire.specs.declared.fault.WireFault.{WireFault};
ghost use Rattle.qq_amqp_wire.specs.declared.frame.Frame.{Frame};

use crate::fault::WireFault;
use crate::frame::Frame;
use crate::reading::found_at;
use qq_base::Memory;
use std::alloc::Global;
use std::marker::Model;

/// Reads frames from bytes that come in pieces. Contracts see it as its input.
#[derive(Drop)]
pub struct Reader {
    alloc: Global,
    begun: bool,
    frame_max: u32,
    bytes: Vec<u8>,
    // Where in `bytes` the unread ones begin.
    start: usize,
    fault: Option<WireFault>,
}

impl Model for Reader {
    ghost Value = { Input };

    ghost view = { λ r. record {
      begun = r.begun;
      max = r.frame_max;
      unread = drop r.start r.bytes.items;
      fault = r.fault;
    } };

    ghost invariant = { λ r. r.start ≤ vec_len r.bytes };
}

/// Removes so many bytes at the front.
fn remove_front(bytes: &mut Vec<u8>, count: usize)
    requires { count ≤ vec_len bytes.old }
    ensures { bytes.new.items ≡ drop count bytes.old.items }
{
    let len = bytes.len();
    bytes.copy_within(count..len, 0);
    bytes.truncate(len - count);
}

/// The bytes from a place on.
fn bytes_from(bytes: &[u8], start: usize) -> &[u8]
    requires { start ≤ length bytes.now }
    ensures value { result.now ≡ drop start bytes.now }
    ensures bytes { AreBytes result.now }
{
    bytes.split_at(start).1
}

impl Reader {
    /// A reader to which nothing has come yet, of frames of at most so many bytes.
    pub fn new(alloc: Global, frame_max: u32) -> Self
        ensures { result ≡ fresh frame_max }
    {
        Reader {
            alloc,
            begun: false,
            frame_max,
            bytes: Vec::new(alloc),
            start: 0,
            fault: None,
        }
    }

    /// Takes the next piece of the bytes. After a fault it isn't looked at. Out of memory, the reader is as
    /// before.
    #[tactic(auto, unfolding(crate::specs::Input::fed))]
    pub fn feed(&mut self, piece: &[u8]) -> Result<(), Memory>
        ensures ok { OnOk result (self.new ≡ fed piece.now self.old) }
        ensures err { OnErr result (self.new ≡ self.old) }
        ensures want { IsOkUnless result Memory.Want }
    {
        if self.fault.is_some() {
            return Ok(());
        }
        remove_front(&mut self.bytes, self.start);
        self.start = 0;
        self.bytes.extend_from_slice(piece)?;
        Ok(())
    }

    /// From now on frames have at most so many bytes.
    pub fn set_max(&mut self, frame_max: u32)
        ensures { self.new ≡ record self.old { max = frame_max } }
    {
        self.frame_max = frame_max;
    }

    fn unread(&self) -> &[u8]
        ensures value { result.now ≡ self.now.unread }
        ensures bytes { AreBytes self.now.unread }
    {
        bytes_from(self.bytes.as_slice(), self.start)
    }

    #[tactic(auto, unfolding(crate::specs::Input::next))]
    fn step(&mut self) -> Result<Option<Frame>, WireFault>
        ensures exact { Gives memory_of (λ x. x) result (next self.old).0 }
        ensures left { self.new ≡ left_by result self.old }
        ensures bytes { AreBytes self.old.unread }
    {
        let stopped = self.fault;
        let unread = self.unread();
        if let Some(fault) = stopped {
            return Err(fault);
        }
        match found_at(self.alloc, self.begun, self.frame_max, unread) {
            Ok(None) => Ok(None),
            Ok(Some((frame, taken))) => {
                self.start += taken;
                self.begun = true;
                Ok(Some(frame))
            }
            Err(WireFault::Memory) => Err(WireFault::Memory),
            Err(fault) => {
                self.bytes.clear();
                self.start = 0;
                self.fault = Some(fault);
                Err(fault)
            }
        }
    }

    /// The next frame, or None where no whole one has come and no fault shows yet. After a fault other than
    /// `Memory` the reader answers it from then on; after `Memory` it is as before.
    pub fn next_frame(&mut self) -> Result<Option<Frame>, WireFault>
        ensures frame { IfOk result (λ o. IfSome o (HandsOut self.old self.new)) }
        ensures none { IfOk result (λ o. IfNone o (Waits self.old self.new)) }
        ensures err { IfErr result (StopsAt self.old self.new) }

        // A frame and a fault that stand at the front are answered, unless memory ran out.
        ensures whole { (f : Frame) (rest : List ℕ) → self.old.fault ≡ None
            → IsRead self.old.begun self.old.max self.old.unread f rest
            → Gives memory_of (λ x. x) result (Ok (Some f)) }
        ensures fault { (e : WireFault) → self.old.fault ≡ None
            → HasFault self.old.begun self.old.max self.old.unread e
            → Gives memory_of (λ x. x) result (Err e) }
        ensures stopped { (e : WireFault) → self.old.fault ≡ Some e
            → Gives memory_of (λ x. x) result (Err e) }

        // Which answer it is, and what is left.
        ensures exact { Gives memory_of (λ x. x) result (next self.old).0 }
        ensures left { self.new ≡ left_by result self.old }
    {
        self.step()
    }
}
