// Books and terms as text: document 01's "Text and program".
// A reader takes the text and an offset and gives the offset after, as the definitions of specs/Told say it; a rest of the text would not tell that.
// A writer takes the lent bytes and an offset and gives the offset after, also past the end, where nothing is written: Short is told by it.
#![tactic(auto)]

pub mod book_text;
pub mod key;
pub mod lent;
pub mod line;
pub mod mail;
pub mod number;
pub mod refusal;
pub mod rule_text;
pub mod term_text;
pub mod token;
pub mod write_book;
