// The request (document 01, 'Store, knowledge, request'): one message with one Query Changes sub-request, read whole; its filters,
// put to the elements of a store; and the frame of the response, written.
#![tactic(auto)]

pub mod choice;
pub mod filter;
pub mod message;
pub mod response;
