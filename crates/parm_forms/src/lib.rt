//! What the items of each keyword spell, and what a definition has where a keyword isn't given.
//!
//! `read_value` reads the items of one keyword by its form: it promises the value, or the first fault in the order of the tables
//! (`gives`). `form_at` and `defaults` are the tables: the form and the default of each keyword of each kind, in the order of
//! `parm_keys`. What is read fits its form, the defaults fit or are nothing, and a definition's values stay so as keywords are given
//! (`values_fit`, `defaults_fit`, `fitting_values_stay`): the layer above has its ranges from these laws. It stands on `parm_value`
//! (numbers, sizes and seconds), `parm_keys` (the words), `parm_lex` (spans), `vd_base` (names of stores), `vd_list` and `vd_outside`.
#![tactic(auto)]

mod choice;
mod fault;
mod form;
mod laws;
mod names;
mod numbers;
mod read;
mod rows;
mod sizes;
mod texts;
mod value;

pub use choice::Choice;
pub use fault::{ParmKind, ValueRefused};
pub use form::Form;
pub use laws::{defaults_fit, fitting_values_stay, values_fit, values_have_their_items};
pub use names::is_other_name;
pub use read::read_value;
pub use rows::{Kind, defaults, form_at, row_at};
pub use texts::name_text;
pub use value::Value;

#[cfg(test)]
mod tests;
