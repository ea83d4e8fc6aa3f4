//! Laws of the definitions, each the contract of a function that does nothing.
ghost use Rattle.std.specs.Prelude.{◌≡◌, List, Some};
ghost use Rattle.tiny_http_io.specs.Device.{Feed};
ghost use Rattle.tiny_http_open_request.specs.Pipeline.{Item, Pipeline};

use tiny_http_body::framing::{LONGEST_WITH_HEAD, Profile, STANDARD_HEAD, STRICT_HEAD};
use tiny_http_standard_head::heads::MOST_HEADERS;

/// The values of the constants that the definitions of a head and of its framing use.
pub fn sizes_of_heads()
    ensures with_head { LONGEST_WITH_HEAD ≡ 1024 }
    ensures strict { STRICT_HEAD ≡ 65536 }
    ensures standard { STANDARD_HEAD ≡ 65536 }
    ensures headers { MOST_HEADERS ≡ 256 }
{}

/// Under each profile each feed has exactly one pipeline: the list of its requests and refused heads.
pub fn one_pipeline()
    ensures some { (p : Profile) (feed : Feed) → (items : List Item) × Pipeline p (Some feed.bytes) feed.stop items }
    ensures one { (p : Profile) (feed : Feed) (items others : List Item)
        → Pipeline p (Some feed.bytes) feed.stop items
        → Pipeline p (Some feed.bytes) feed.stop others
        → items ≡ others }
{}
