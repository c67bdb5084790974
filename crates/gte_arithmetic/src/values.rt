// What commands compute with: vectors, a value after its test, the camera, and what a line, a colour, a vertex and an
// average leave.

// Three numbers, for x, y and z.
#[derive(Clone, Copy)]
pub struct Triple<T> {
    pub x: T,
    pub y: T,
    pub z: T,
}

// V0..V2, or IR1..3.
pub type Vector = Triple<i16>;

// TR, BK, FC, or MAC1..3.
pub type Long = Triple<i32>;

// Three exact values.
pub type Wide = Triple<i64>;

// A value after a test, with the bits of FLAG that the test sets.
#[derive(Clone, Copy)]
pub struct Checked<T> {
    pub v: T,
    pub flag: u32,
}

// What a line of MAC1..3 and IR1..3 leaves.
#[derive(Clone, Copy)]
pub struct Line {
    pub mac: Long,
    pub ir: Vector,
    pub flag: u32,
}

// What a colour command leaves: rgb goes into the colour FIFO.
#[derive(Clone, Copy)]
pub struct Shade {
    pub mac: Long,
    pub ir: Vector,
    pub rgb: u32,
    pub flag: u32,
}

// H (unsigned), the screen offset and the depth cueing of registers 56 to 60.
#[derive(Clone, Copy)]
pub struct Camera {
    pub h: u32,
    pub ofx: i32,
    pub ofy: i32,
    pub dqa: i16,
    pub dqb: i32,
}

// What one part of RTPS or RTPT leaves.
#[derive(Clone, Copy)]
pub struct Vertex {
    pub mac0: i32,
    pub mac: Long,
    pub ir0: u32,
    pub ir: Vector,
    pub sz: u32,
    pub xy: u32,
    pub flag: u32,
}

// A point of the screen.
#[derive(Clone, Copy)]
pub struct Corner {
    pub x: i16,
    pub y: i16,
}

// What AVSZ3 and AVSZ4 leave.
#[derive(Clone, Copy)]
pub struct Average {
    pub mac0: i32,
    pub otz: u32,
    pub flag: u32,
}

// The bits of FLAG that belong to a MAC of a line: its sum above 44 bits and below them, and its IR out of range.
#[derive(Clone, Copy)]
pub struct MacBits {
    pub over: u32,
    pub under: u32,
    pub ir: u32,
}

pub const MAC1: MacBits = MacBits {
    over: 0x4000_0000,
    under: 0x800_0000,
    ir: 0x100_0000,
};

pub const MAC2: MacBits = MacBits {
    over: 0x2000_0000,
    under: 0x400_0000,
    ir: 0x80_0000,
};

pub const MAC3: MacBits = MacBits {
    over: 0x1000_0000,
    under: 0x200_0000,
    ir: 0x40_0000,
};
