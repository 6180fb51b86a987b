// A frame: the registers that a call owns.
#[derive(Clone, Copy)]
pub struct Frame {
    pub ins: [u32; 8],
    pub locals: [u32; 8],
}
