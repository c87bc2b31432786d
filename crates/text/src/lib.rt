// Text as bytes: whole numbers in decimal digits, where a field ends, and words. It knows of no job.
#![tactic(auto)]

mod eight;
mod fields;
mod hexadecimal;
mod numbers;
mod read;
mod storing;
mod writer;

pub use fields::{behind, field_end};
pub use hexadecimal::{bits_of, hex};
pub use numbers::natural;
pub use read::Read;
pub use storing::{store, store_point};
pub use writer::{Writer, put_zeros};
