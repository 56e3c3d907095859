/// The registers of a processor: x0 to x31, and the program counter pc. x0 always holds 0.
#[derive(Clone, Copy, Debug)]
pub struct Regs {
    pub x: [u32; 32],
    pub pc: u32,
}
