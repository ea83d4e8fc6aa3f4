//! Laws that follow from the definitions in the contracts. Each is the contract of a function that does nothing.

pub use tiny_http_client::laws::streamed_chunks_are_read;
pub use tiny_http_connection_laws::laws::{
    close_is_the_last, conversation_is_read, numbers_match_their_accounts,
    output_joins_the_segments, reads_give_the_body, requests_begin_the_pipeline,
    response_can_be_read, size_of_what_is_skipped, slots_are_read, steps_are_taken_in_turn,
    steps_can_be_read, the_end_has_a_reason,
};
pub use tiny_http_core::laws::{
    fronts_are_unfinished, one_client_answer, one_framing, one_list_of_client_answers,
    one_pipeline, sent_texts_are_read, size_of_buffers, sizes_of_heads, text_is_read_back,
    turns_pass_in_order,
};
pub use tiny_http_threads::laws::numbers_of_pools;
pub use tiny_http_wire::laws::{
    header_field_equality, header_from_its_text, header_of_texts, http_version_order,
    lines_by_the_grammar, method_from_its_name, method_hash, one_chunked_body, one_coding_asked,
    one_path_and_query, one_quality_list, response_headers, sizes_of_bodies, status_code_order,
};
