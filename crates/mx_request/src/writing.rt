//! The texts of requests and replies, added to bytes.

mod fields;
mod objects;
mod replies;
mod requests;

pub(crate) use replies::push_reply;
pub(crate) use requests::push_request;
