/// Why pages could not be written.
#[derive(Clone, Copy, Debug, PartialEq, Eq)]
pub enum PageRefusal {
    /// No frame was free for a page that needs one. So many pages the holder would have.
    Short(u32),
    Memory,
}
