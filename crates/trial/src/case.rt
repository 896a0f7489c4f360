// What a case asks about: its points and its recording, by the tolerances that its head tells.
use framed::Head;

#[derive(Clone, Copy, Debug)]
pub(crate) struct Case<'a> {
    pub(crate) head: Head,
    pub(crate) points: &'a [u8],
    pub(crate) recording: &'a [u8],
}
