// The parts of a record that code passes by value. Their formats, and the rules they obey, are in specs/.
#![tactic(auto)]

ghost use Rattle.std.specs.Prelude.{◌≡◌, ◌-◌, ◌≤◌, length, take, drop};

// Bits of a coordinate, of a start or end direction and of a direction code.
#[derive(Clone, Copy, PartialEq, Eq)]
pub struct Widths {
    pub c: usize,
    pub b: usize,
    pub k: usize,
}

// Bytes 15 to 21 of a record: points per cm, widths, straight step, 256 times perpendicular over straight step, and half, the
// directions in a half turn (N).
#[derive(Clone, Copy, PartialEq, Eq)]
pub struct Scale {
    pub points: usize,
    pub widths: Widths,
    pub step: usize,
    pub ratio: usize,
    pub half: usize,
}

// A record's header, without what the rest of the record says. Certificates and device are one number of 16 bits.
#[derive(Clone, Copy)]
pub struct Header {
    pub device: usize,
    pub scale: Scale,
}

// The header's own bytes, behind which the first view starts; and a record's, at least and at most.
impl Header {
    pub const BYTES: usize = 24;

    pub const LEAST_BYTES: usize = 24;

    pub const MOST_BYTES: usize = 32768;
}

// A view's header, without the length of its skeleton.
#[derive(Clone, Copy)]
pub struct ViewHeader {
    pub number: usize,
    pub position: usize,
    pub impression: usize,
    pub quality: usize,
    pub width: usize,
    pub height: usize,
}

// The lines of a view.
impl ViewHeader {
    pub const MOST_LINES: usize = 1024;
}

// A part of the bytes: from its first byte up to the byte behind it.
#[derive(Clone, Copy)]
pub struct Part {
    pub from: usize,
    pub to: usize,
}

impl Part {
    // Its bytes.
    pub fn of(self, bytes: &[u8]) -> &[u8]
        requires { (self.from ≤ self.to) × (self.to ≤ length bytes.now) }
        ensures { result.now ≡ take (self.to - self.from) (drop self.from bytes.now) }
    {
        &bytes[self.from..self.to]
    }
}

// How a call names a view: finger position and view number.
#[derive(Clone, Copy)]
pub struct ViewName {
    pub finger: u32,
    pub number: u32,
}

// The image of a finger that a view was made from: its size in points.
#[derive(Clone, Copy)]
pub struct Image {
    pub width: usize,
    pub height: usize,
}

// The types of segments whose payload has a format here. A record may hold any type of 16 bits, read as a number and compared by order
// (order_segments): an enum would name these two and carry the number of every other.
#[derive(Clone, Copy)]
pub struct SegmentType;

impl SegmentType {
    pub const LOCAL_QUALITY: usize = 3;

    pub const PORES: usize = 4;
}

// Where a line starts or ends. Kinds: 0 imaginary end, 1 ridge end, 2 bifurcation, 3 imaginary continuation.
#[derive(Clone, Copy)]
pub struct End {
    pub kind: usize,
    pub direction: usize,
    pub x: usize,
    pub y: usize,
}
