// The memory that a process sees: its private bytes, and the segments that it holds.
ghost use Rattle.std.specs.Prelude.{◌≡◌, ℕ, ◌+◌, ◌-◌, ◌*◌, ◌/◌, ◌%◌, ◌^◌, ◌<◌, ◌≤◌, ◌==◌, List, [], length, take, slice_get, slice_index_or, IfSome, Some, None, Option, MatchOption, true, option_map};
ghost use Rattle.seq_isa.specs.Meaning.{number_at};
ghost use Rattle.seq_rv32.specs.Widths.{IsWidth};
ghost use Rattle.seq_rv32.specs.ByteMemory.{bytes_stored};
ghost use Rattle.seq_flat.specs.State.{no_segment};
ghost use Rattle.seq_flat.specs.Memory.{is_owner, shared_bytes, seen, bytes_from, segments_after};

use crate::SegmentState;
use seq_rv32::{Admit, Port};
use seq_words::{Bytes, Items, Pid};

/// The address of the first byte of segment 0.
const SEGMENTS: u32 = 0x4000_0000;

/// The addresses from one segment's first byte to the next one's.
const STRIDE: u32 = 0x1_0000;

/// A place in a list of bytes.
#[derive(Clone, Copy)]
struct Place<'a> {
    bytes: &'a [u8],
    at: usize,
}

// Whether process `pid` is the owner.
pub fn is_owner(pid: Pid, owner: Option<Pid>) -> bool
    ensures { result ≡ is_owner pid.0 owner }
{
    match owner {
        Some(holder) => holder.0 == pid.0,
        None => false,
    }
}

// The bytes of a segment by its number, for its owner alone.
fn shared_bytes(segments: &[SegmentState], pid: Pid, segment: usize) -> &[u8]
    ensures { result.now ≡ shared_bytes pid.0 (slice_index_or segments.now segment no_segment) }
{
    match segments.get(segment) {
        Some(found) if is_owner(pid, found.owner) => found.bytes.as_slice(),
        _ => &[],
    }
}

// Where an address lies. A segment that the process doesn't hold has no byte.
#[tactic(auto, using(crate::proofs::Seen::seen_private, crate::proofs::Seen::seen_shared))]
fn locate<'a>(bytes: &'a [u8], segments: &'a [SegmentState], pid: Pid, address: u32) -> Place<'a>
    ensures same { (k : ℕ) → address % 4 + k < 4 →
        seen bytes.now segments.now pid.0 (address + k) ≡ slice_get result.bytes.now (result.at + k) }
    ensures small { result.at < 2 ^ 32 }
{
    if address < SEGMENTS {
        return Place {
            bytes,
            at: address as usize,
        };
    }
    let beyond = address - SEGMENTS;
    Place {
        bytes: shared_bytes(segments, pid, (beyond / STRIDE) as usize),
        at: (beyond % STRIDE) as usize,
    }
}

// The little-endian number of one, two or four bytes, where all of them are there.
#[tactic(auto, unfolding(seq_isa::specs::Meaning::number_at))]
fn number(bytes: &[u8], at: usize, width: u8) -> Option<u32>
    requires width { IsWidth width }
    requires at { at < 2 ^ 32 }
    ensures value { result ≡ number_at (slice_get bytes.now) at width }
    ensures bound { IfSome result (λ n. n < 2 ^ (8 * width)) }
{
    if at + width as usize > bytes.len() {
        return None;
    }
    let first = bytes[at] as u32;
    if width == 1 {
        return Some(first);
    }
    let second = bytes[at + 1] as u32;
    if width == 2 {
        return Some(first + 256 * second);
    }
    let third = bytes[at + 2] as u32;
    let fourth = bytes[at + 3] as u32;
    Some(first + 256 * (second + 256 * (third + 256 * fourth)))
}

// The number at an address, in what a process sees.
#[tactic(auto, using(crate::proofs::Seen::number_seen))]
fn load(bytes: &[u8], segments: &[SegmentState], pid: Pid, address: u32, width: u8) -> Option<u32>
    requires width { IsWidth width }
    requires aligned { address % width ≡ 0 }
    ensures value { result ≡ number_at (seen bytes.now segments.now pid.0) address width }
    ensures bound { IfSome result (λ n. n < 2 ^ (8 * width)) }
{
    let place = locate(bytes, segments, pid, address);
    number(place.bytes, place.at, width)
}

// The byte at an address, in what a process sees.
#[tactic(auto, using(crate::proofs::Seen::byte_seen))]
fn byte(bytes: &[u8], segments: &[SegmentState], pid: Pid, address: u32) -> Option<u8>
    ensures { result ≡ seen bytes.now segments.now pid.0 address }
{
    let place = locate(bytes, segments, pid, address);
    place.bytes.get(place.at).copied()
}

/// So many bytes from an address on, modulo 2^32, at the front of a buffer: none where one of them is outside.
#[tactic(auto, using(crate::proofs::Gathered::gathered_none))]
pub fn gather(
    bytes: &[u8],
    segments: &[SegmentState],
    pid: Pid,
    address: u32,
    count: usize,
) -> Option<[u8; 64]>
    requires { count ≤ 64 }
    ensures { bytes_from (seen bytes.now segments.now pid.0) address count ≡ option_map (λ b. take count b) result }
{
    let mut gathered = [0; 64];
    for i in 0..count {
        match byte(bytes, segments, pid, address.wrapping_add(i as u32)) {
            Some(byte) => gathered[i] = byte,
            None => return None,
        }
    }
    Some(gathered)
}

// Puts the low bytes of a number at a place.
fn put(bytes: &mut Bytes, at: usize, width: u8, value: u32)
    requires width { IsWidth width }
    requires inside { at + width ≤ length bytes.old }
    requires at { at < 2 ^ 32 }
    ensures { bytes.new ≡ bytes_stored bytes.old at width value }
{
    let low = value.to_le_bytes();
    for i in 0..width as usize {
        bytes.set(at + i, low[i]);
    }
}

// Puts the low bytes of a number at an address among the segments.
#[tactic(auto, using(crate::proofs::Stores::segments_after_high))]
fn put_shared(segments: &mut Items<SegmentState>, at: u32, width: u8, value: u32)
    requires high { 0x40000000 ≤ at }
    requires width { IsWidth width }
    requires there { (at - 0x40000000) / 0x10000 < length segments.old }
    requires inside { (at - 0x40000000) % 0x10000 + width ≤ length (slice_index_or segments.old ((at - 0x40000000) / 0x10000) no_segment).bytes }
    ensures { segments.new ≡ segments_after segments.old at width value }
{
    let beyond = at - SEGMENTS;
    let segment = segments.at_mut((beyond / STRIDE) as usize);
    put(&mut segment.bytes, (beyond % STRIDE) as usize, width, value);
}

/// What a process sees, as a core's memory.
#[derive(Drop)]
pub struct View<'a> {
    pub bytes: &'a mut Bytes,
    pub segments: &'a mut Items<SegmentState>,
    pub pid: Pid,
}

impl<'a> Port for View<'a> {
    ghost use Rattle.seq_flat.specs.Memory.{seen, admitted, bytes_after, segments_after};
    ghost use Rattle.seq_isa.specs.Meaning.{number_at};

    ghost bytes = { λ v. seen v.bytes.now v.segments.now v.pid.0 };

    ghost admission = { λ v at width. admitted (number_at (seen v.bytes.now v.segments.now v.pid.0) at width) };

    ghost after_store = { λ v at width value. record v {
      bytes = record v.bytes { now = bytes_after v.bytes.now at width value };
      segments = record v.segments { now = segments_after v.segments.now at width value };
    } };

    fn fetch(&self, at: u32) -> Option<u32> {
        load(
            self.bytes.as_slice(),
            self.segments.as_slice(),
            self.pid,
            at,
            4,
        )
    }

    fn load(&self, at: u32, width: u8) -> Option<u32> {
        load(
            self.bytes.as_slice(),
            self.segments.as_slice(),
            self.pid,
            at,
            width,
        )
    }

    fn admit(&self, at: u32, width: u8) -> Admit {
        match self.load(at, width) {
            Some(_) => Admit::Fits,
            None => Admit::Outside,
        }
    }

    #[tactic(auto, using(crate::proofs::Stores::bytes_after_low, crate::proofs::Stores::bytes_after_high, crate::proofs::Stores::segments_after_low))]
    fn store(&mut self, at: u32, width: u8, value: u32) {
        if at < SEGMENTS {
            put(self.bytes, at as usize, width, value);
            return;
        }
        put_shared(self.segments, at, width, value);
    }
}
