//! Laws of the definitions. Each is the contract of a function that does nothing.
pub use tiny_http_body::laws::one_framing;
pub use tiny_http_client::laws::{
    fronts_are_unfinished, one_client_answer, one_list_of_client_answers, sent_texts_are_read,
    text_is_read_back,
};
pub use tiny_http_io::laws::size_of_buffers;
pub use tiny_http_open_request::laws::{one_pipeline, sizes_of_heads};
pub use tiny_http_turns::laws::turns_pass_in_order;
