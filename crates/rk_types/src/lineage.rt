/// A master whose log holds a part of a tablet, with the place of the first entry that counts for the tablet; places
/// count the entries of a log from 0.
#[derive(Clone, Copy, PartialEq, Eq)]
pub struct Member {
    pub master: u8,
    pub from: u64,
}
