//! Laws of the definitions. Each is the contract of a function that does nothing.
pub use tiny_http_body::laws::one_chunked_body;
pub use tiny_http_head::laws::{
    header_field_equality, header_from_its_text, http_version_order, lines_by_the_grammar,
    method_from_its_name, method_hash, one_path_and_query, status_code_order,
};
pub use tiny_http_response::laws::{
    header_of_texts, one_coding_asked, response_headers, sizes_of_bodies,
};
pub use tiny_http_text::laws::one_quality_list;
