use seq_words::Bytes;

/// The image of a program: what its private memory starts with.
#[derive(Drop)]
pub struct Image {
    /// The private bytes, a multiple of 32 from 32 to 65,536.
    pub size: u32,
    /// The first pc, a multiple of four below the size.
    pub entry: u32,
    /// The first bytes, at most as many as the size. Zeros follow.
    pub bytes: Bytes,
}
