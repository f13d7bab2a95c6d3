// The frames of an archive.

// The kinds of frames, with their numbers in the format.
#[derive(Clone, Copy, PartialEq, Eq, Debug)]
pub(crate) enum Frame {
    Head = 1,
    Amendment = 2,
    Inspection = 3,
}
