// The chain that is shown for an end.

// For C, and so flat: the number of the refusal and zeros; or 0, and the recording position of each point, with zeros beyond the last point.
#[repr(C)]
#[derive(Clone, Copy, Debug, PartialEq, Eq)]
pub struct Chain {
    pub refusal: u32,
    pub positions: [u32; 64],
}
