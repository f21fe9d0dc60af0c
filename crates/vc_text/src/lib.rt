//! What texts are made of: letters, classes of letters, blanks, and texts that grow.
#![tactic(auto)]

mod blanks;
mod classes;
mod escapes;
mod growing;
mod laws;
mod letters;

pub use blanks::{after_blanks, is_blank};
pub use classes::class_letters;
pub use escapes::{inside, unescape};
pub use growing::{cut_back, push_byte, push_letter, push_number, push_text};
pub use laws::items_are_read;
pub use letters::{LetterAt, is_escaped, is_plain, letter_at};
