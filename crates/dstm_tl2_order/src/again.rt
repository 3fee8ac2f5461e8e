/// Why an attempt was left, and must be made again. Each names an object.
#[derive(Clone, Copy, Debug, PartialEq, Eq)]
pub enum TlAgain {
    /// It was found locked.
    Locked(u32),
    /// It was found free, with a version above the sample.
    Newer(u32),
    /// It was found free, with another version than the one that was read.
    Changed(u32),
}
