//! Laws of the definitions, each the contract of a function that does nothing.
ghost use Rattle.std.specs.Prelude.{◌≡◌, ◌<◌, ◌⊎◌, ◌++◌, ℕ, List, [], length, MatchResult};
ghost use Rattle.tiny_http_head.specs.declared.common.Method.{Method};
ghost use Rattle.tiny_http_client.specs.ClientAnswer.{ClientAnswer, ReadsAnswer, LacksAnswer, UnfinishedAnswer};
ghost use Rattle.tiny_http_client.specs.ClientAnswer.{MalformedAnswer, ReadsAnswers};
ghost use Rattle.tiny_http_client.specs.ClientReading.{answer_read};
ghost use Rattle.tiny_http_client.specs.ClientText.{IsReadableAnswer, received_answer};
ghost use Rattle.tiny_http_response.specs.Answer.{Answer, Printing, text_of};
ghost use Rattle.tiny_http_io.specs.Device.{Feed, IsFront};
ghost use Rattle.tiny_http_client.specs.SentTexts.{SentText, IsSentText, BreaksOff, AreIn, joined_texts, methods};
ghost use Rattle.tiny_http_client.specs.SentTexts.{whole_answers, remains};
ghost use Rattle.tiny_http_body.specs.Text.{Whole, Broken};
ghost use Rattle.tiny_http_body.specs.Chunks.{WholeChunks};
ghost use Rattle.tiny_http_body.specs.declared.streamed.StreamedForm.TheVariants.{Chunks};
ghost use Rattle.tiny_http_body.specs.Streamed.{pieces_text, end_text, joined, IsPiece};
ghost use Rattle.std.specs.List.{AllByRecursion};
ghost use Rattle.std.specs.declared.io.ErrorKind.{ErrorKind};

/// For any bytes and method, exactly one of three holds: the bytes begin with a response to a request with the method,
/// they end before such a response does, or they break a rule of the client's grammar. The response and the rest after
/// it are unique. `answer_read` computes which of the three holds.
pub fn one_client_answer()
    ensures some { (method : Method) (bytes : List ℕ)
        → ((answer : ClientAnswer) × (rest : List ℕ) × ReadsAnswer method bytes answer rest)
        ⊎ (UnfinishedAnswer method bytes ⊎ MalformedAnswer method bytes) }
    ensures one { (method : Method) (bytes : List ℕ) (answer other : ClientAnswer) (rest remainder : List ℕ)
        → ReadsAnswer method bytes answer rest
        → ReadsAnswer method bytes other remainder
        → (answer ≡ other) × (rest ≡ remainder) }
    ensures not_unfinished { (method : Method) (bytes : List ℕ) (answer : ClientAnswer) (rest : List ℕ)
        → ReadsAnswer method bytes answer rest
        → UnfinishedAnswer method bytes
        → ⊥ }
    ensures not_malformed { (method : Method) (bytes : List ℕ) (answer : ClientAnswer) (rest : List ℕ)
        → ReadsAnswer method bytes answer rest
        → MalformedAnswer method bytes
        → ⊥ }
    ensures not_both { (method : Method) (bytes : List ℕ)
        → UnfinishedAnswer method bytes
        → MalformedAnswer method bytes
        → ⊥ }
    ensures computed { (method : Method) (bytes : List ℕ)
        → MatchResult (answer_read method bytes) (λ a. ReadsAnswer method bytes a.0 a.1) (LacksAnswer method bytes) }
{}

/// Any bytes are read as exactly one list of responses to requests with these methods, in order, and one remainder. The
/// list ends when the methods are used up, or when the remainder doesn't begin with a response to the next method.
pub fn one_list_of_client_answers()
    ensures some { (methods : List Method) (bytes : List ℕ)
        → (answers : List ClientAnswer) × (rest : List ℕ) × ReadsAnswers methods bytes answers rest }
    ensures one { (methods : List Method) (bytes : List ℕ) (answers others : List ClientAnswer)
        (rest remainder : List ℕ)
        → ReadsAnswers methods bytes answers rest
        → ReadsAnswers methods bytes others remainder
        → (answers ≡ others) × (rest ≡ remainder) }
{}

/// Whatever follows the complete text of a response, a client reads back the version, status, printed headers and sent
/// body as they were printed, and consumes exactly that text. The status must be 200 or above, the response must not be
/// an upgrade and must be printed for the client's method, the names and values of its headers must be readable, and
/// its numbers must fit their types (`IsReadableAnswer`).
pub fn text_is_read_back()
    ensures { (method : Method) (answer : Answer) (feed : Feed) (printing : Printing) (rest : List ℕ)
        → IsReadableAnswer method answer feed printing
        → (text_of answer feed printing).ending ≡ Whole
        → ReadsAnswer method ((text_of answer feed printing).bytes ++ rest) (received_answer answer feed printing)
        rest }
{}

/// More bytes after a response don't change how it is read. A proper prefix of a response is unfinished. If the text of
/// a response that a client can read (`IsReadableAnswer`) breaks off, it is such a prefix.
pub fn fronts_are_unfinished()
    ensures stays { (method : Method) (bytes more : List ℕ) (answer : ClientAnswer) (rest : List ℕ)
        → ReadsAnswer method bytes answer rest
        → ReadsAnswer method (bytes ++ more) answer (rest ++ more) }
    ensures front { (method : Method) (front more : List ℕ) (answer : ClientAnswer)
        → 0 < length more
        → ReadsAnswer method (front ++ more) answer []
        → UnfinishedAnswer method front }
    ensures broken { (method : Method) (answer : Answer) (feed : Feed) (printing : Printing) (kind : ErrorKind)
        → IsReadableAnswer method answer feed printing
        → (text_of answer feed printing).ending ≡ Broken kind
        → BreaksOff method (text_of answer feed printing).bytes }
{}

/// Responses that are sent one after another are read back one after another, whether the bytes are complete or cut at
/// any byte.
pub fn sent_texts_are_read()
    ensures whole { (texts : List SentText)
        → AllByRecursion IsSentText texts
        → ReadsAnswers (methods texts) (joined_texts texts) (whole_answers texts) (remains texts) }
    ensures cut { (texts : List SentText) (out : List ℕ)
        → AllByRecursion IsSentText texts
        → IsFront out (joined_texts texts)
        → (answers : List ClientAnswer)
        × (rest : List ℕ)
        × ReadsAnswers (methods texts) out answers rest
        × AreIn texts out answers rest }
{}

/// A body that is streamed in chunks is read as the concatenation of its pieces, however they divide it (RFC 9112,
/// section 7.1).
pub fn streamed_chunks_are_read()
    ensures { (pieces : List (List ℕ)) (rest : List ℕ) → AllByRecursion IsPiece pieces
        → WholeChunks ((pieces_text Chunks pieces ++ end_text Chunks) ++ rest) (joined pieces) rest }
{}
