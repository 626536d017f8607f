//! Pages: the profile of HTML that is read, and the tree that a page is.
#![tactic(auto)]

mod document;
mod front;
mod laws;
mod mark;
mod names;
mod page;
mod piece;
mod plain;
mod prelude;
mod seen;
mod standing;
mod tag;
mod tree;
mod unit_places;

pub use document::{Content, DocAttribute, DocNode, HandlerAt, NameAt, ScriptAt};
pub use front::first_place;
pub use laws::{
    inserted_script_is_passed_over, pages_are_nested, pages_have_shape, scripts_lie_within,
    tables_are_spelled,
};
pub use names::{HANDLERS, is_handler_name};
pub use page::{Document, HtmlFault, read_html, read_whole};
pub use prelude::PRELUDE;
