ghost use Rattle.std.specs.Prelude.{◌≡◌, ◌≤◌, [], IfOk, None, Some, option_map, true};
ghost use Rattle.ch_edge.specs.Ends.{IsNewLink};
ghost use Rattle.ch_io.specs.Counts.{Rose};
ghost use Rattle.ch_post.specs.Posts.{Answers, HasPosted, Talks};
ghost use Rattle.ch_post.specs.Requests.{front, request_text};
ghost use Rattle.ch_post.specs.Talks.{HasWritten, IsPatient};

use crate::seen::Seen;
use crate::status_line::{first_line, status_in};
use crate::talk::Talk;
use ch_base::{Bytes, Memory, Text};
use ch_edge::{Dial, Dialed};
use ch_io::{Post, Posted};
use ch_net::{Link, link_calls_chain};
use itoa::Buffer;
use std::alloc::Global;
use std::marker::Model;

/// A post that dials a link for each body, and gives it up before the next. Contracts see what the link of the last post
/// tells and the bytes that were read from it.
#[derive(Drop)]
pub struct LinkPost<D: Dial + Drop> {
    dial: D,
    front: Text,
    link: Option<D::Conn>,
    seen: Seen,
    last: Option<Posted>,
    faults: u64,
}

impl<D: Dial + Drop> Model for LinkPost<D> {
    ghost use Rattle.std.specs.Prelude.{option_map};
    ghost use Rattle.ch_post.specs.Posts.{LinkPostView};

    ghost Value = { LinkPostView };

    ghost view = { λ p. record {
      front = p.front;
      link = option_map (λ l. D.Conn.told l) p.link;
      seen = p.seen;
      last = p.last;
      faults = p.faults;
      dial_faults = D.faults p.dial;
    } };
}

impl<D: Dial + Drop> LinkPost<D> {
    /// Posts to this path of this host, which is written as it is in the `Host` field.
    pub fn new(alloc: Global, dial: D, host: &Text, path: &Text) -> Result<LinkPost<D>, Memory>
        ensures { IfOk result (λ p. p ≡ record { front = front host.now path.now; link = None; seen = []; last = None; faults = 0; dial_faults = D.faults dial }) }
    {
        Ok(LinkPost {
            dial,
            front: front(alloc, host.as_str(), path.as_str())?,
            link: None,
            seen: Seen::new(),
            last: None,
            faults: 0,
        })
    }

    /// The link of the last post. None where nothing was posted yet, or the last dial failed.
    pub fn last(&self) -> Option<&D::Conn>
        ensures { option_map (λ l. D.Conn.told l.now) result ≡ self.now.link }
    {
        self.link.as_ref()
    }

    /// The bytes that were read from the link of the last post, at most `MOST_SEEN`.
    pub fn seen(&self) -> &[u8]
        ensures { result.now ≡ self.now.seen }
    {
        self.seen.as_slice()
    }

    /// Posts a body, with the app's key and the body's signature. It takes no memory.
    pub fn post(&mut self, body: &Bytes, key: &Text, signature: &[u8; 64]) -> Posted
        ensures posted { HasPosted self.old self.new (record { body = body.now; key = key.now; signature = signature.now }) result }
        ensures front { self.new.front ≡ self.old.front }
        ensures last { self.new.last ≡ Some result }
        ensures later { self.old.faults ≤ self.new.faults }
        ensures failed { result ≡ Posted.Failed → Rose self.old.faults self.new.faults }
    {
        self.link = None;
        self.seen.clear();
        let posted = match self.dial.dial() {
            Dialed::Made(link) => {
                let (link, posted) = talk_over(
                    link,
                    &self.front,
                    body,
                    key,
                    signature,
                    &mut self.seen,
                );
                self.link = Some(link);
                posted
            }
            Dialed::Failed => Posted::Failed,
        };
        self.last = Some(posted);
        if posted == Posted::Failed {
            self.faults = self.faults.saturating_add(1);
        }
        posted
    }
}

impl<D: Dial + Drop> Post for LinkPost<D> {
    ghost use Rattle.std.specs.Prelude.{None};

    ghost told = { λ p. record { handed = None; last = p.last; faults = p.faults } };

    fn post(&mut self, body: &Bytes, key: &Text, signature: &[u8; 64]) -> Posted {
        LinkPost::post(self, body, key, signature)
    }
}

/// What stands before the key in each request.
fn front(alloc: Global, host: &str, path: &str) -> Result<Text, Memory>
    ensures { IfOk result (λ t. t ≡ front host.now path.now) }
{
    let text = format!(in alloc;
        "POST {path} HTTP/1.1\r\nHost: {host}\r\nContent-Type: application/json\r\nX-Pusher-Key: "
    )?;
    Ok(Text::from_string(text))
}

/// Writes a request to a new link, and reads the first line of the response.
fn talk_over<L: Link>(
    link: L,
    front: &Text,
    body: &Bytes,
    key: &Text,
    signature: &[u8; 64],
    seen: &mut Seen,
) -> (L, Posted)
    requires new { IsNewLink (L.told link) }
    requires seen { seen.old ≡ [] }
    ensures { Talks (request_text front.now (record { body = body.now; key = key.now; signature = signature.now }))
        (L.told result.0) seen.new result.1 }
{
    link_calls_chain();
    let mut talk = Talk::new(link);
    write_request(&mut talk, front, body, key, signature);
    talk.read_line(seen);
    let posted = answer_in(seen.as_slice());
    (talk.into_link(), posted)
}

fn write_request<L: Link>(
    talk: &mut Talk<L>,
    front: &Text,
    body: &Bytes,
    key: &Text,
    signature: &[u8; 64],
)
    requires patient { IsPatient (L.told talk.old.link) talk.old.goes_on talk.old.stalls }
    requires goes_on { talk.old.goes_on ≡ true }
    ensures patient { IsPatient (L.told talk.new.link) talk.new.goes_on talk.new.stalls }
    ensures written { HasWritten (L.told talk.old.link) (request_text front.now (record { body = body.now; key = key.now; signature = signature.now }))
        (record { link = L.told talk.new.link; goes_on = talk.new.goes_on }) }
{
    link_calls_chain();
    let mut length = Buffer::new();
    talk.write(front.as_str().as_bytes());
    talk.write(key.as_str().as_bytes());
    talk.write(b"\r\nX-Pusher-Signature: ");
    talk.write(signature);
    talk.write(b"\r\nContent-Length: ");
    talk.write(length.format(body.len()).as_bytes());
    talk.write(b"\r\nConnection: close\r\n\r\n");
    talk.write(body.as_slice());
}

/// What the bytes of a response answer.
fn answer_in(seen: &[u8]) -> Posted
    ensures { Answers seen.now result }
{
    match first_line(seen) {
        Some(line) => match status_in(line) {
            Some(status) => Posted::Status(status),
            None => Posted::Failed,
        },
        None => Posted::Failed,
    }
}
