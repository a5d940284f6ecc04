use crate::content::Content;
use vf_frames::FrameNo;

/// The number of a page: its words have the addresses from 64 times the number on.
#[derive(Clone, Copy, Debug, PartialEq, Eq)]
pub struct PageNo(pub u32);

/// A page that a holder has: its number, the frame that counts it, and its words.
#[derive(Drop)]
pub(crate) struct Held {
    pub(crate) page: PageNo,
    pub(crate) frame: FrameNo,
    pub(crate) content: Content,
}
