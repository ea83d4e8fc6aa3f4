//! Consequences of the connection theorem (the contract of `tiny_http_connection::driver::run`): a short form of the
//! theorem, and what a client reads.
ghost use Rattle.std.specs.Prelude.{◌≡◌, ◌<◌, ◌≤◌, ◌^◌, ◌+◌, ◌++◌, ◌∷◌, ◌⊎◌, ◌≢◌, length, map, slice_get, ℕ, Bool};
ghost use Rattle.std.specs.Prelude.{true, false, List, []};
ghost use Rattle.std.specs.Prelude.{Option, Some, None, IsTrue};
ghost use Rattle.std.specs.List.{AllByRecursion, list_all};
ghost use Rattle.tiny_http_io.specs.Device.{Feed, Sink, IsFront};
ghost use Rattle.tiny_http_head.specs.Heads.{Message};
ghost use Rattle.tiny_http_body.specs.declared.framing.Framing.{Framing};
ghost use Rattle.tiny_http_open_request.specs.Pipeline.{Item, Request, Asks};
ghost use Rattle.tiny_http_connection.specs.Segments.{Slot, is_finished};
ghost use Rattle.tiny_http_connection.specs.Steps.{StepValue, ReplyValue, TimedValue, Ask, NotYet, NoSuch, number_of};
ghost use Rattle.tiny_http_connection.specs.Steps.{is_done};
ghost use Rattle.tiny_http_body.specs.declared.framing.Profile.{Profile};
ghost use Rattle.tiny_http_connection.specs.Conversation.{IsConversation};
ghost use Rattle.tiny_http_client.specs.ClientAnswer.{ClientAnswer, ReadsAnswers};
ghost use Rattle.tiny_http_client.specs.SentTexts.{methods, whole_answers, remains};
ghost use Rattle.tiny_http_response.specs.Readable.{IsReadable};
ghost use Rattle.tiny_http_connection_laws.specs.InShort.{handed, requests_from, ReadsInOrder, sent, segment_of};
ghost use Rattle.tiny_http_connection_laws.specs.InShort.{AreOfOneHead, maker, IsAmong};
ghost use Rattle.tiny_http_connection_laws.specs.Accounts.{Finished, account, MatchesAccount, IsThrough, IsHanded};
ghost use Rattle.tiny_http_connection_laws.specs.Accounts.{takes};
ghost use Rattle.tiny_http_connection_laws.specs.Accounts.{waits_its_turn};
ghost use Rattle.tiny_http_connection_laws.specs.Accounts.{is_done_early, IsTaken, is_ask, is_read, HasEnd};
ghost use Rattle.tiny_http_connection_laws.specs.Accounts.{OneEndsRequests, OneStops};
ghost use Rattle.httpdate.specs.declared.date.HttpDate.{HttpDate};
ghost use Rattle.tiny_http_connection_laws.specs.Closes.{NoneFollowsClose, IsReadAsSaid};
ghost use Rattle.tiny_http_connection_laws.specs.ClientReads.{headers_printed, CanBeRead, AreReadable, CanBeReadAt};
ghost use Rattle.tiny_http_connection_laws.specs.ClientReads.{IsOutputOf, HaveAnswers, ReadsNumbers, sent_texts};

use tiny_http_body::body::MOST_SKIPPED;
use tiny_http_response::response::Response;

/// THE REQUESTS ARE THE PIPELINE'S: those that were handed out are the first requests of the pipeline in the client's
/// bytes (which is unique: `one_pipeline`), in its order, each numbered by its position there. None is skipped, added
/// or changed.
pub fn requests_begin_the_pipeline()
    ensures first { (p : Profile) (feed : Feed) (before after : Sink) (steps : List TimedValue)
        (replies : List ReplyValue) (held : List ℕ) (ended : Bool) (unread : Option Feed)
        → (c : IsConversation p feed before steps replies after held ended unread)
        → (later : List (ℕ × Message × Framing))
        × (requests_from 0 c.items ≡ handed replies ++ later) }
{}

/// THE READS ARE THE BODY'S: the reads of each request give the next bytes of that request's body, one after another.
/// They report an end or a fault only after the last byte, and only the end or the fault of that body. (If the client's
/// input ends within a body with a content length, that body has an end under `Lenient` and `Strict`, and a fault under
/// `Standard`.) After an upgrade under `Standard` the reads give what follows the request.
pub fn reads_give_the_body()
    ensures next { (p : Profile) (feed : Feed) (before after : Sink) (steps : List TimedValue)
        (replies : List ReplyValue) (held : List ℕ) (ended : Bool) (unread : Option Feed)
        → (c : IsConversation p feed before steps replies after held ended unread)
        → (k : ℕ) (r : Request)
        → slice_get c.items k ≡ Some (Asks r)
        → ReadsInOrder k r r.body steps replies }
{}

/// THE OUTPUT IS THE SEGMENTS: what the writer took, followed by what is held, is a prefix of the joined segments, and
/// all of their bytes if the writer did not fail. Each number that was reached has one segment: the bytes that were
/// made for it. The segments are joined in the order of their numbers, up to and including the first that isn't whole.
pub fn output_joins_the_segments()
    ensures front { (p : Profile) (feed : Feed) (before after : Sink) (steps : List TimedValue)
        (replies : List ReplyValue) (held out : List ℕ) (ended : Bool) (unread : Option Feed)
        → (c : IsConversation p feed before steps replies after held ended unread)
        → IsOutputOf after held out
        → IsFront out (sent (map segment_of c.end.reached.slots)) }
    ensures whole { (p : Profile) (feed : Feed) (before after : Sink) (steps : List TimedValue)
        (replies : List ReplyValue) (held out : List ℕ) (ended : Bool) (unread : Option Feed)
        → (c : IsConversation p feed before steps replies after held ended unread)
        → IsOutputOf after held out
        → after.failures ≡ before.failures
        → out ≡ sent (map segment_of c.end.reached.slots) }
    // The segment of number k belongs to item k of the pipeline: a request, or a refused head.
    ensures each { (p : Profile) (feed : Feed) (before after : Sink) (steps : List TimedValue)
        (replies : List ReplyValue) (held : List ℕ) (ended : Bool) (unread : Option Feed)
        → (c : IsConversation p feed before steps replies after held ended unread)
        → (k : ℕ) (s : Slot)
        → slice_get c.end.reached.slots k ≡ Some s
        → (item : Item)
        × (slice_get c.items k ≡ Some item)
        × AreOfOneHead s.item item }
    // A response that the server didn't make itself is that of a step for its number, and has that step's date.
    ensures made { (p : Profile) (feed : Feed) (before after : Sink) (steps : List TimedValue)
        (replies : List ReplyValue) (held : List ℕ) (ended : Bool) (unread : Option Feed)
        → (c : IsConversation p feed before steps replies after held ended unread)
        → (k : ℕ) (s : Slot) (t : TimedValue)
        → slice_get c.end.reached.slots k ≡ Some s
        → maker k s.stage ≡ Some t
        → IsAmong t steps }
{}

/// EACH NUMBER IS AS ITS STEPS AND THEIR REPLIES SAY. Each request that was handed out has a number. The number is
/// finished if and only if a step finished it. Its response is that of the step that answered it, if one did; otherwise
/// it is the server's, or there is none. The bytes written to its raw writer or upgraded stream are those of its
/// writes, joined. If its head expects a 100 and a step asked for that, the 100 has the date of the first such step;
/// otherwise there is none. A refused head is answered by the server, and no step does anything for it.
pub fn numbers_match_their_accounts()
    ensures reached { (p : Profile) (feed : Feed) (before after : Sink) (steps : List TimedValue)
        (replies : List ReplyValue) (held : List ℕ) (ended : Bool) (unread : Option Feed)
        → (c : IsConversation p feed before steps replies after held ended unread)
        → (k : ℕ)
        → IsHanded k (handed replies)
        → (s : Slot) × (slice_get c.end.reached.slots k ≡ Some s) }
    ensures accounts { (p : Profile) (feed : Feed) (before after : Sink) (steps : List TimedValue)
        (replies : List ReplyValue) (held : List ℕ) (ended : Bool) (unread : Option Feed)
        → (c : IsConversation p feed before steps replies after held ended unread)
        → (k : ℕ) (s : Slot)
        → slice_get c.end.reached.slots k ≡ Some s
        → MatchesAccount k s s.item (account k steps replies) }
{}

/// STEPS ARE TAKEN IN TURN. A step other than an `Ask` or a `Read`, for a request that was handed out and accepts the
/// step, is done or refused, and not put off, once the numbers before it are finished; an `IntoWriter`, a `Drop` and a
/// `Finish` are even before that. A `Respond`, a `Write`, a `Flush` and an `Upgrade` are done only once those numbers
/// are finished. Except for an `Ask`, the reply is `NoSuch` if no request that was handed out accepts the step; if one
/// does, only a `Read` may get `NoSuch`. An `Ask` is put off only while the last request handed out isn't finished.
pub fn steps_are_taken_in_turn()
    ensures done { (p : Profile) (feed : Feed) (before after : Sink) (steps later : List TimedValue)
        (replies more : List ReplyValue) (held : List ℕ) (ended : Bool) (unread : Option Feed) (date : HttpDate)
        (step : StepValue) (reply : ReplyValue)
        → (c : IsConversation p feed before (steps ++ (date, step) ∷ later) (replies ++ reply ∷ more) after held ended
        unread)
        → length replies ≡ length steps
        → IsHanded (number_of step) (handed replies)
        → takes (account (number_of step) steps replies).condition step ≡ true
        → (is_done_early step ≡ false
        → (j : ℕ) → j < number_of step → IsThrough (slice_get c.items j) (account j steps replies))
        → IsTaken step reply }
    ensures waits { (p : Profile) (feed : Feed) (before after : Sink) (steps later : List TimedValue)
        (replies more : List ReplyValue) (held : List ℕ) (ended : Bool) (unread : Option Feed) (date : HttpDate)
        (step : StepValue) (reply : ReplyValue)
        → (c : IsConversation p feed before (steps ++ (date, step) ∷ later) (replies ++ reply ∷ more) after held ended
        unread)
        → length replies ≡ length steps
        → waits_its_turn step ≡ true
        → is_done reply ≡ true
        → (j : ℕ)
        → j < number_of step
        → IsThrough (slice_get c.items j) (account j steps replies) }
    ensures found { (p : Profile) (feed : Feed) (before after : Sink) (steps later : List TimedValue)
        (replies more : List ReplyValue) (held : List ℕ) (ended : Bool) (unread : Option Feed) (date : HttpDate)
        (step : StepValue) (reply : ReplyValue)
        → (c : IsConversation p feed before (steps ++ (date, step) ∷ later) (replies ++ reply ∷ more) after held ended
        unread)
        → length replies ≡ length steps
        → is_ask step ≡ false
        → reply ≢ NoSuch
        → IsHanded (number_of step) (handed replies)
        × (takes (account (number_of step) steps replies).condition step ≡ true) }
    ensures known { (p : Profile) (feed : Feed) (before after : Sink) (steps later : List TimedValue)
        (replies more : List ReplyValue) (held : List ℕ) (ended : Bool) (unread : Option Feed) (date : HttpDate)
        (step : StepValue) (reply : ReplyValue)
        → (c : IsConversation p feed before (steps ++ (date, step) ∷ later) (replies ++ reply ∷ more) after held ended
        unread)
        → length replies ≡ length steps
        → is_ask step ≡ false
        → is_read step ≡ false
        → IsHanded (number_of step) (handed replies)
        → takes (account (number_of step) steps replies).condition step ≡ true
        → reply ≢ NoSuch }
    ensures ask { (p : Profile) (feed : Feed) (before after : Sink) (steps later : List TimedValue)
        (replies more : List ReplyValue) (held : List ℕ) (ended : Bool) (unread : Option Feed) (date : HttpDate)
        → (c : IsConversation p feed before (steps ++ (date, Ask) ∷ later) (replies ++ NotYet ∷ more) after held ended
        unread)
        → length replies ≡ length steps
        → (k : ℕ)
        × IsHanded k (handed replies)
        × ((j : ℕ) → IsHanded j (handed replies) → j ≤ k)
        × ((account k steps replies).condition ≢ Finished) }
{}

/// THE END HAS A REASON. If an `Ask` reports the end, at least one of three things holds: every request of the pipeline
/// was handed out, and each refused head has a number; no head may be read after one of the numbers, for example
/// because its chunked body was given up before its end was reported; or a step ended the requests, because memory for
/// an `Ask` couldn't be allocated or a response asked to close the connection.
pub fn the_end_has_a_reason()
    ensures reason { (p : Profile) (feed : Feed) (before after : Sink) (steps : List TimedValue)
        (replies : List ReplyValue) (held : List ℕ) (ended : Bool) (unread : Option Feed)
        → (c : IsConversation p feed before steps replies after held ended unread)
        → HasEnd steps replies
        → ((requests_from 0 c.items ≡ handed replies) × (length c.end.reached.slots ≡ length c.items))
        ⊎ (OneStops c.end.reached.slots ⊎ OneEndsRequests steps replies) }
{}

/// THE CLIENT THEOREM, from the contract of `tiny_http_connection::driver::run` alone: a client that knows only the
/// methods it sent reads the output as one response after another, in the order of the numbers.
///
/// The premise is about the steps. Each `Respond` has a status of 200 or more and readable headers
/// (`response_can_be_read` shows that the other requirements hold), each `Upgrade` names a protocol that isn't ASCII
/// and so is refused, and there is no `IntoWriter`. So each number that was reached is a refused head, or is finished
/// by such a `Respond`, done or refused, by a `Drop` or by a refused `Upgrade`, or isn't answered yet. Raw writers and
/// upgrades that were done are excluded: their bytes are arbitrary.
///
/// A header is readable if its name and its value are ASCII, its name has no white space and no colon, and its value is
/// trimmed and has no CR LF. Under `Standard` this applies to headers as they are printed, and to the protocols that
/// are offered: headers whose name isn't a token are left out, and a space replaces each byte that is invalid in a
/// value. So a value whose first or last byte is replaced isn't trimmed, and isn't readable.
///
/// The client reads the response to a refused head as one to a GET, except that under `Lenient` and `Strict` it reads
/// the 505 to a HEAD as one to a HEAD. It reads the version (under `Standard`, 1.1), the status, the headers as they
/// are printed (with `Server`, `Date` and the header that frames the body, and under `Standard` with `Connection` and
/// `Upgrade` if they are needed), and the body that is sent. It skips a 100 before the response. After the last
/// response, either nothing remains or an unfinished prefix of the next number's text does.
pub fn conversation_is_read()
    // Even if the writer failed, the bytes that were sent or are held are the responses of the first numbers, followed
    // by what remains.
    ensures output { (p : Profile) (feed : Feed) (before after : Sink) (steps : List TimedValue)
        (replies : List ReplyValue) (held out : List ℕ) (ended : Bool) (unread : Option Feed)
        → (c : IsConversation p feed before steps replies after held ended unread)
        → AreReadable p steps
        → IsOutputOf after held out
        → ReadsNumbers c.end.reached.slots out }
    // If the writer's failure count did not rise, these are the responses of all numbers before the first whose text
    // breaks off or that isn't answered yet.
    ensures whole { (p : Profile) (feed : Feed) (before after : Sink) (steps : List TimedValue)
        (replies : List ReplyValue) (held out : List ℕ) (ended : Bool) (unread : Option Feed)
        → (c : IsConversation p feed before steps replies after held ended unread)
        → AreReadable p steps
        → IsOutputOf after held out
        → after.failures ≡ before.failures
        → (let texts = sent_texts c.end.reached.slots in
        ReadsAnswers (methods texts) out (whole_answers texts) (remains texts)) }
    // If the output has not ended and each number is finished, each number has its response, and nothing remains.
    ensures complete { (p : Profile) (feed : Feed) (before after : Sink) (steps : List TimedValue)
        (replies : List ReplyValue) (held out : List ℕ) (unread : Option Feed)
        → (c : IsConversation p feed before steps replies after held false unread)
        → AreReadable p steps
        → IsOutputOf after held out
        → IsTrue (list_all is_finished c.end.reached.slots)
        → (answers : List ClientAnswer)
        × HaveAnswers c.end.reached.slots answers
        × ReadsAnswers (methods (sent_texts c.end.reached.slots)) out answers [] }
{}

/// States the constant that the definitions of a request's end take from the code: the maximum number of unread bytes
/// that are skipped in a body with a content length.
pub fn size_of_what_is_skipped()
    ensures { MOST_SKIPPED ≡ 65536 }
{}

/// CLOSE IS THE LAST: under `Standard`, in any conversation, whatever its steps, no number follows one whose response
/// says `Connection: close` (RFC 9112, section 9.6).
///
/// A response says `close` if it is an error response to a refused head, or if that was decided when it was made:
/// because of the request's head, a response that asked for it, a 100 that is owed, or what is left of the body. A
/// client that can read the response reads `close`, as an element of `Connection`, if and only if the response says it:
/// the header list of a `Response` never contains a `Connection`. So the client knows from the response that no further
/// one follows.
pub fn close_is_the_last()
    ensures none { (feed : Feed) (before after : Sink) (steps : List TimedValue) (replies : List ReplyValue)
        (held : List ℕ) (ended : Bool) (unread : Option Feed)
        → (c : IsConversation Profile.Standard feed before steps replies after held ended unread)
        → NoneFollowsClose c.end.reached.slots }
    ensures read { (feed : Feed) (before after : Sink) (steps : List TimedValue) (replies : List ReplyValue)
        (held : List ℕ) (ended : Bool) (unread : Option Feed)
        → (c : IsConversation Profile.Standard feed before steps replies after held ended unread)
        → AllByRecursion IsReadAsSaid c.end.reached.slots }
{}

/// The premise of `conversation_is_read` implies that of `slots_are_read`.
pub fn steps_can_be_read()
    // No number that was reached has a raw writer or was upgraded, and each response that answers one can be read.
    ensures slots { (p : Profile) (feed : Feed) (before after : Sink) (steps : List TimedValue)
        (replies : List ReplyValue) (held : List ℕ) (ended : Bool) (unread : Option Feed)
        → (c : IsConversation p feed before steps replies after held ended unread)
        → AreReadable p steps
        → AllByRecursion (CanBeReadAt p) c.end.reached.slots }
    // If the writer's failure count did not rise, the writer did not fail.
    ensures unfailed { (p : Profile) (feed : Feed) (before after : Sink) (steps : List TimedValue)
        (replies : List ReplyValue) (held : List ℕ) (ended : Bool) (unread : Option Feed)
        → (c : IsConversation p feed before steps replies after held ended unread)
        → after.failures ≡ before.failures
        → c.end.failure ≡ None }
{}

/// The client theorem with its premise about the numbers that were reached. It is stronger than `conversation_is_read`:
/// steps with the reply `NotYet`, `NoSuch` or `Refused` are unrestricted.
pub fn slots_are_read()
    // Even if the writer failed, the bytes that were sent or are held are the responses of the first numbers, followed
    // by what remains.
    ensures output { (p : Profile) (feed : Feed) (before after : Sink) (steps : List TimedValue)
        (replies : List ReplyValue) (held out : List ℕ) (ended : Bool) (unread : Option Feed)
        → (c : IsConversation p feed before steps replies after held ended unread)
        → AllByRecursion (CanBeReadAt p) c.end.reached.slots
        → IsOutputOf after held out
        → ReadsNumbers c.end.reached.slots out }
    // If the writer did not fail, these are the responses of all numbers before the first whose text breaks off or that
    // isn't answered yet.
    ensures whole { (p : Profile) (feed : Feed) (before after : Sink) (steps : List TimedValue)
        (replies : List ReplyValue) (held out : List ℕ) (ended : Bool) (unread : Option Feed)
        → (c : IsConversation p feed before steps replies after held ended unread)
        → AllByRecursion (CanBeReadAt p) c.end.reached.slots
        → IsOutputOf after held out
        → c.end.failure ≡ None
        → (let texts = sent_texts c.end.reached.slots in
        ReadsAnswers (methods texts) out (whole_answers texts) (remains texts)) }
    // If the output has not ended and each number is finished, each number has its response, and nothing remains.
    ensures complete { (p : Profile) (feed : Feed) (before after : Sink) (steps : List TimedValue)
        (replies : List ReplyValue) (held out : List ℕ) (unread : Option Feed)
        → (c : IsConversation p feed before steps replies after held false unread)
        → AllByRecursion (CanBeReadAt p) c.end.reached.slots
        → IsOutputOf after held out
        → IsTrue (list_all is_finished c.end.reached.slots)
        → (answers : List ClientAnswer)
        × HaveAnswers c.end.reached.slots answers
        × ReadsAnswers (methods (sent_texts c.end.reached.slots)) out answers [] }
{}

/// The client theorem's requirements on responses hold, under `Standard` or not, for each `Response` with a status of
/// 200 or more, headers that are readable as they are printed, and data of fewer than 2^63 bytes: its status and its
/// length fit their types, and its header list has no `Transfer-Encoding` and no `Content-Length`.
pub fn response_can_be_read<D>(response: &Response<D>)
    ensures { (by_standard : Bool) (content : Feed)
        → length content.bytes < 2 ^ 63
        → 200 ≤ response.now.answer.status
        → AllByRecursion IsReadable (headers_printed by_standard response.now.answer)
        → CanBeRead by_standard (record { answer = response.now.answer; content = content }) }
{
    let _status = response.status_code();
    let _length = response.data_length();
    let _headers = response.headers();
}
