// A page: the text that one line prints, put together where its room was reserved.
use super::reserved::Reserved;

// 8,192 rules of at most 70 bytes each, and a count line of at most 17.
const ROOM: usize = 573_457;

pub(crate) type Page = Reserved<u8, ROOM>;

mod texts;
