//! The bytes of values: numbers, texts, headers and prints, as files and jobs have them.
//!
//! Every file of a session is built of these fields, and a print or a job's hash is taken of them.
//! `inc_base` stands below. Open `specs/Forms.antt` first: it says which bytes each value has, and
//! `Cursor` reads exactly what `put_number` and `put_text` write.
#![tactic(auto)]

mod cursor;
mod field;
mod front;
mod header;
mod laws;
mod print;
mod put;
mod read;
mod take;
mod values;

pub use cursor::Cursor;
pub use field::{Field, put_all};
pub use front::{take_flag, take_text, take_u8, take_u16, take_u32, take_u64};
pub use header::Header;
pub use laws::{form_is_read_back, forms_differ, narrowing_is_exact};
pub use print::{Print, job_hash, print_of};
pub use put::{put_header, put_number, put_text};
pub use read::{Read, read_whole, take_list};
pub use take::take_header;
pub use values::Byte;
